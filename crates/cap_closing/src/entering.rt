// Stays (C interface), point 6: the numbers given out and the new vertices stand at places of the one room that C lends, and there is no heap.
// Candidates entered among the mesh vertices: boundary_closure.rs, `materialize_candidate`.
ghost use Rattle.std.specs.Prelude.{◌≡◌, [], ◌∷◌, ℕ, ◌+◌, ◌-◌, ◌*◌, ◌/◌, ◌≤◌, ◌<◌, length, get_or};
ghost use Rattle.geometry.specs.Meshes.{vertex, points_of};
ghost use Rattle.candidate_pool.specs.Standing.{count_at};
ghost use Rattle.cap_triangles.specs.Room.{closing_at};
ghost use Rattle.cap_closing.specs.Steps.{named_at, NamesEntering, NamesEntered, Shaped, Started};

use candidate_pool::pool::point_of;
use candidate_pool::room::entry_at;
use cap_triangles::room::CapRoom;
use geometry::numbers::{CandidateVertexId, MeshVertexId};
use geometry::point::Point;
use geometry::vertices::vertex_at;

// At first a candidate has its mesh vertex, and there are nv vertices.
pub fn start_entering(w: &mut [u64], room: CapRoom, nv: usize)
    requires { (count_at w.old ≤ room.n) × (closing_at room.n room.nf room.nc + 2 * room.n + 8 * room.nc < length w.old) }
    ensures { Started (closing_at room.n room.nf room.nc) room.n room.nc nv w.old w.new }
{
    let given = room.given_at();
    let count = w[6] as usize;
    w[room.vertices_at()] = nv as u64;
    for c in 0..count {
        // Stays (plainer): one word of five is copied, so that they are no part of the room to copy whole.
        w[given + c] = w[entry_at(CandidateVertexId(c)) + 3];
    }
}

// "a candidate's mesh vertex, else one new vertex at its point": the only way from a candidate to a mesh vertex
pub fn materialize_candidate(
    w: &mut [u64],
    room: CapRoom,
    nv: usize,
    id: CandidateVertexId,
) -> MeshVertexId
    requires low { id.0 < count_at w.old }
    requires names_entering { NamesEntering (closing_at room.n room.nf room.nc) room.n room.nc nv w.old }
    ensures { NamesEntered (closing_at room.n room.nf room.nc) room.n room.nc nv (id.0 ∷ []) w.old w.new × (result.0 + 1 ≡ get_or w.new (closing_at room.n room.nf room.nc + id.0) 0) }
{
    let at = room.given_at() + id.0;
    let known = w[at] as usize;
    if known != 0 {
        return MeshVertexId(known - 1);
    }
    let count = room.vertices_at();
    let v = w[count] as usize;
    w[at] = v as u64 + 1;
    w[room.fresh_at() + (v - nv)] = id.0 as u64;
    w[count] = v as u64 + 1;
    MeshVertexId(v)
}

// The candidate that became v, a new vertex behind the nv of the mesh.
fn candidate_of_vertex(w: &[u64], room: CapRoom, nv: usize, v: MeshVertexId) -> CandidateVertexId
    requires own { (nv ≤ v.0) × (v.0 < get_or w.now (closing_at room.n room.nf room.nc + 2 * room.n + 8 * room.nc) 0) }
    requires names_entering { NamesEntering (closing_at room.n room.nf room.nc) room.n room.nc nv w.now }
    ensures { result.0 ≡ get_or w.now (closing_at room.n room.nf room.nc + room.n + (v.0 - nv)) 0 }
{
    CandidateVertexId(w[room.fresh_at() + (v.0 - nv)] as usize)
}

// The point of a vertex of the mesh, or of a new one.
pub fn entered_point(w: &[u64], vertices: &[f64], room: CapRoom, v: MeshVertexId) -> Point
    requires low { v.0 < get_or w.now (closing_at room.n room.nf room.nc + 2 * room.n + 8 * room.nc) 0 }
    requires names_entering { NamesEntering (closing_at room.n room.nf room.nc) room.n room.nc (length vertices.now / 3) w.now }
    requires shaped { Shaped vertices.now w.now }
    ensures { result ≡ vertex (named_at (closing_at room.n room.nf room.nc) room.n room.nc (length vertices.now / 3) (points_of vertices.now) w.now).points v.0 }
{
    let nv = vertices.len() / 3;
    if v.0 < nv {
        return vertex_at(vertices, v);
    }
    point_of(w, candidate_of_vertex(w, room, nv, v))
}
