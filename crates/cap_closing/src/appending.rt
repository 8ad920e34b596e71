// Stays (C interface), point 6: the facets left and their records stand at places of the one room that C lends, and there is no heap.
// boundary_closure.rs, `append_selected_candidate_caps`, up to the area test.
ghost use Rattle.std.specs.Prelude.{◌≡◌, ℕ, ◌+◌, ◌*◌, ◌/◌, ◌≤◌, ◌<◌, length, get_or};
ghost use Rattle.geometry.specs.Meshes.{points_of};
ghost use Rattle.geometry.specs.Triangles.{vertices};
ghost use Rattle.geometry.specs.Numbers.{candidates_of, mesh_vertices_of};
ghost use Rattle.mesh_filter.specs.Room.{Below};
ghost use Rattle.candidate_pool.specs.Standing.{count_at};
ghost use Rattle.cap_triangles.specs.Room.{turned_at, closing_at};
ghost use Rattle.cap_closing.specs.Closing.{is_large};
ghost use Rattle.cap_closing.specs.Steps.{named_at, NamesEntering, NamesEntered, NewNumbers, Shaped, put_left, cap_at_room, Appended, Taking, Turned, Appending, bit};

use crate::entering::{entered_point, materialize_candidate};
use cap_selection::seeds::is_selected;
use cap_triangles::room::CapRoom;
use cap_triangles::turning::turned_cap;
use geometry::triangle::{CandidateTriangle, MeshTriangle, Triangle3};
use mesh_filter::corners::corners_key;

// The corners in turn.
fn materialize_triangle(
    w: &mut [u64],
    room: CapRoom,
    nv: usize,
    t: CandidateTriangle,
) -> MeshTriangle
    requires below { Below (count_at w.old) (candidates_of t) }
    requires names_entering { NamesEntering (closing_at room.n room.nf room.nc) room.n room.nc nv w.old }
    ensures { NamesEntered (closing_at room.n room.nf room.nc) room.n room.nc nv (vertices (candidates_of t)) w.old w.new × NewNumbers (closing_at room.n room.nf room.nc)
        w.new (candidates_of t) (mesh_vertices_of result) }
{
    let a = materialize_candidate(w, room, nv, t.a);
    let b = materialize_candidate(w, room, nv, t.b);
    let c = materialize_candidate(w, room, nv, t.c);
    MeshTriangle { a, b, c }
}

// "less those of measured double area 1e-12 or under"
fn is_large(w: &[u64], vertices: &[f64], room: CapRoom, t: MeshTriangle) -> bool
    requires below { Below (get_or w.now (closing_at room.n room.nf room.nc + 2 * room.n + 8 * room.nc) 0) (mesh_vertices_of t) }
    requires names_entering { NamesEntering (closing_at room.n room.nf room.nc) room.n room.nc (length vertices.now / 3) w.now }
    requires shaped { Shaped vertices.now w.now }
    ensures { result ≡ is_large (named_at (closing_at room.n room.nf room.nc) room.n room.nc (length vertices.now / 3) (points_of vertices.now) w.now).points (mesh_vertices_of t) }
{
    let a = entered_point(w, vertices, room, t.a);
    let b = entered_point(w, vertices, room, t.b);
    let c = entered_point(w, vertices, room, t.c);
    let double_area = Triangle3 { a, b, c }.area2();
    !(double_area <= 1.0e-12)
}

// A facet behind `left` others, and its record.
fn put_left(w: &mut [u64], room: CapRoom, left: usize, t: MeshTriangle)
    requires left_below { (left < room.nc) × (closing_at room.n room.nf room.nc + 2 * room.n + 8 * room.nc < length w.old) }
    requires below { Below 2097152 (mesh_vertices_of t) }
    ensures { w.new ≡ put_left (closing_at room.n room.nf room.nc) room.n room.nc left (mesh_vertices_of t) w.old }
{
    let at = room.left_at() + 3 * left;
    w[at] = t.a.0 as u64;
    w[at + 1] = t.b.0 as u64;
    w[at + 2] = t.c.0 as u64;
    let record = room.threes_at() + 2 * left;
    w[record] = corners_key(t);
    w[record + 1] = left as u64;
}

// Triangle i: whether a facet of it is left.
fn append_cap(w: &mut [u64], vertices: &[f64], room: CapRoom, i: usize, left: usize) -> bool
    requires left_below { (i < room.nc) × (left < room.nc) }
    requires names_entering { NamesEntering (closing_at room.n room.nf room.nc) room.n room.nc (length vertices.now / 3) w.old }
    requires shaped { Shaped vertices.now w.old }
    requires taking { Taking room.n room.nf room.nc w.old }
    ensures { Appended vertices.now (closing_at room.n room.nf room.nc) room.n room.nc (cap_at_room room.n room.nf room.nc w.old i) left (bit result) w.old w.new }
{
    let t = turned_cap(w, room, i);
    let ids = materialize_triangle(w, room, vertices.len() / 3, t);
    if is_large(w, vertices, room, ids) {
        put_left(w, room, left, ids);
        return true;
    }
    false
}

// Stays (plainer): `positive` tells the two modes that close apart; `BoundaryClosure` has a third, which never comes here.
// Triangle i, if the mode takes it.
fn append_if_taken(
    w: &mut [u64],
    vertices: &[f64],
    room: CapRoom,
    positive: bool,
    i: usize,
    left: usize,
) -> bool
    requires left_below { (i < room.nc) × (left < room.nc) }
    requires names_entering { NamesEntering (closing_at room.n room.nf room.nc) room.n room.nc (length vertices.now / 3) w.old }
    requires shaped { Shaped vertices.now w.old }
    requires taking { Taking room.n room.nf room.nc w.old }
    ensures { Turned vertices.now (closing_at room.n room.nf room.nc) room.n room.nf room.nc positive i left (bit result) w.old w.new }
{
    is_selected(w, room, i) == positive && append_cap(w, vertices, room, i, left)
}

// Stays (plainer): `positive`, as in `append_if_taken`.
// The facets of the triangles that the mode takes, in the order supplied; how many are left.
pub fn append_caps(w: &mut [u64], vertices: &[f64], room: CapRoom, positive: bool) -> usize
    requires names_entering { NamesEntering (closing_at room.n room.nf room.nc) room.n room.nc (length vertices.now / 3) w.old }
    requires shaped { Shaped vertices.now w.old }
    requires taking { Taking room.n room.nf room.nc w.old }
    ensures { Appending vertices.now (closing_at room.n room.nf room.nc) room.n room.nf room.nc positive room.nc result w.old w.new }
{
    let mut left = 0;
    for i in 0..room.nc {
        left += append_if_taken(w, vertices, room, positive, i, left) as usize;
    }
    left
}
