// aabb_clipping.rs, the body of `clip_mesh_to_aabb`: one facet, shared or clipped.
ghost use Rattle.std.specs.Prelude.{◌≡◌, List, ℕ, ◌+◌, ◌*◌, ◌<◌, ◌≤◌, length, get_or};
ghost use Rattle.geometry.specs.Boxes.{faces};
ghost use Rattle.geometry.specs.Triangles.{mapped};
ghost use Rattle.geometry.specs.Triangles as triangles;
ghost use Rattle.geometry.specs.Numbers.{mesh_vertices_of};
ghost use Rattle.geometry.specs.Meshes.{vertex_of};
ghost use Rattle.aabb_planes.specs.Planes.{snapped};
ghost use Rattle.aabb_polygons.specs.Polygons.{clip_polygon};
ghost use Rattle.aabb_facets.specs.Rooms.{room, share_room, share_to, fan_room, facet_room};

use crate::marks::all_marked;
use crate::outputs::{push_vertex, put_corners, put_fan};
use aabb_planes::clip::Clip;
use aabb_polygons::polygon::Polygon;
use geometry::mesh::MeshLists;
use geometry::numbers::MeshVertexId;
use geometry::point::Point;
use geometry::triangle::{MeshTriangle, Triangle3};
use geometry::vertices::{corner_at, facet_at, vertex_at};
use words::put;

// How many vertices and how many facet numbers have been made.
// Stays (plainer), point 5: the lists written beside it are parameters; a struct that holds `&mut` needs a clause more in each function for each list, that it is still the caller's.
#[derive(Clone, Copy)]
pub struct Counts {
    pub vertices: usize,
    pub numbers: usize,
}

// A corner of a facet that is inside: its shared vertex, made at first use.
fn share_vertex(
    vertices: &[f64],
    v: MeshVertexId,
    clip: Clip,
    ids: &mut [u64],
    out_vertices: &mut [f64],
    out_facets: &mut [u32],
    at: Counts,
) -> Counts
    requires { (v.0 < length ids.old) × ((3 * v.0 + 2 < length vertices.now) ×
        ((get_or ids.old v.0 0 ≤ at.vertices + 1) × ((at.vertices < 4294967000) × (at.numbers < 4294967296)))) }
    ensures { room result ids.new out_vertices.new out_facets.new ≡ share_room
        (room at ids.old out_vertices.old out_facets.old) v.0
        (snapped clip.extents clip.eps (vertex_of vertices.now v.0)) }
{
    let nv = at.vertices;
    let nf = at.numbers;
    let i = v.0;
    let k = ids[i];
    if k <= 1 {
        push_vertex(
            out_vertices,
            MeshVertexId(nv),
            clip.snap_near_bbox(vertex_at(vertices, v)),
        );
        put(out_facets, nf, nv as u32);
        ids[i] = (nv + 2) as u64;
        return Counts {
            vertices: nv + 1,
            numbers: nf + 1,
        };
    }
    put(out_facets, nf, (k - 2) as u32);
    Counts {
        vertices: nv,
        numbers: nf + 1,
    }
}

// The three corners of the facet i, in a loop: one call, so that it is inlined.
// Stays (plainer), point 5: room for what a facet adds is asked of `at`; as a field of `Counts` it would have to hold of what comes back too, after any number of facets.
fn share_facet(
    mesh: MeshLists<'_>,
    i: usize,
    clip: Clip,
    ids: &mut [u64],
    out_vertices: &mut [f64],
    out_facets: &mut [u32],
    at: Counts,
) -> Counts
    requires i_in_bounds { (3 * i + 2 < length mesh.facets.now) × (i < 4294967296) }
    requires by_index { (j : ℕ) → j < length mesh.facets.now → (get_or mesh.facets.now j 0 < length ids.old) × (3 * get_or mesh.facets.now j 0 + 2 < length mesh.vertices.now) }
    requires by_index_2 { (w : ℕ) → get_or ids.old w 0 ≤ at.vertices + 1 }
    requires vertices_bound { (at.vertices < 4200000000) × (at.numbers < 4200000000) }
    ensures out_facets_after { room result ids.new out_vertices.new out_facets.new ≡ share_to mesh.entry.vertices.now mesh.entry.facets.now
        clip.extents clip.eps (room at ids.old out_vertices.old out_facets.old) i 3 }
    ensures vertices_bound_2 { (result.vertices ≤ at.vertices + 3) × (result.numbers ≡ at.numbers + 3) }
{
    let mut to = at;
    for j in 0..3 {
        to = share_vertex(
            mesh.vertices,
            corner_at(mesh.facets, 3 * i + j),
            clip,
            ids,
            out_vertices,
            out_facets,
            to,
        );
    }
    to
}

// The fan of a clipped facet, with vertices of its own; nothing of one with fewer than three corners.
fn put_fanned(
    corners: &[Point],
    out_vertices: &mut [f64],
    out_facets: &mut [u32],
    at: Counts,
) -> Counts
    requires { (length corners.now ≤ 28) × ((at.vertices < 4294967000) × (at.numbers < 4294967296)) }
    ensures { (i : List ℕ) → room result i out_vertices.new out_facets.new ≡ fan_room (room at i out_vertices.old out_facets.old)
        corners.now }
{
    let nv = at.vertices;
    let nf = at.numbers;
    let n = corners.len();
    if n < 3 {
        return at;
    }
    let base = MeshVertexId(nv);
    put_corners(out_vertices, base, corners);
    put_fan(out_facets, nf, base, n - 2);
    Counts {
        vertices: nv + n,
        numbers: nf + 3 * (n - 2),
    }
}

// A facet that is not wholly inside.
// Stays (plainer), point 5: room for what a facet adds is asked of `at`; as a field of `Counts` it would have to hold of what comes back too, after any number of facets.
fn cut_facet(
    vertices: &[f64],
    t: MeshTriangle,
    clip: Clip,
    polygon: &mut Polygon,
    spare: &mut Polygon,
    out_vertices: &mut [f64],
    out_facets: &mut [u32],
    at: Counts,
) -> Counts
    requires a_in_bounds { (3 * t.a.0 + 2 < length vertices.now) × ((3 * t.b.0 + 2 < length vertices.now) × (3 * t.c.0 + 2 < length vertices.now)) }
    requires vertices_bound { (at.vertices < 4200000000) × (at.numbers < 4200000000) }
    ensures by_index { (i : List ℕ) → room result i out_vertices.new out_facets.new ≡ fan_room (room at i out_vertices.old out_facets.old)
        (clip_polygon clip.extents clip.eps faces (triangles.vertices (mapped (vertex_of vertices.now) (mesh_vertices_of t)))) }
    ensures vertices_bound_2 { (result.vertices ≤ at.vertices + 28) × (result.numbers ≤ at.numbers + 78) }
{
    let facet = Triangle3 {
        a: vertex_at(vertices, t.a),
        b: vertex_at(vertices, t.b),
        c: vertex_at(vertices, t.c),
    };
    polygon.clip_triangle(facet, clip, spare);
    put_fanned(polygon.corners(), out_vertices, out_facets, at)
}

// The facet i.
// Stays (plainer), point 5: room for what a facet adds is asked of `at`; as a field of `Counts` it would have to hold of what comes back too, after any number of facets.
pub fn clip_facet(
    mesh: MeshLists<'_>,
    i: usize,
    clip: Clip,
    polygon: &mut Polygon,
    spare: &mut Polygon,
    ids: &mut [u64],
    out_vertices: &mut [f64],
    out_facets: &mut [u32],
    at: Counts,
) -> Counts
    requires i_in_bounds { (3 * i + 2 < length mesh.facets.now) × (i < 4294967296) }
    requires by_index { (j : ℕ) → j < length mesh.facets.now → (get_or mesh.facets.now j 0 < length ids.old) × (3 * get_or mesh.facets.now j 0 + 2 < length mesh.vertices.now) }
    requires by_index_2 { (w : ℕ) → get_or ids.old w 0 ≤ at.vertices + 1 }
    requires vertices_bound { (at.vertices < 4200000000) × (at.numbers < 4200000000) }
    ensures out_facets_after { room result ids.new out_vertices.new out_facets.new ≡ facet_room mesh.entry.vertices.now mesh.entry.facets.now
        clip.extents clip.eps (room at ids.old out_vertices.old out_facets.old) i }
    ensures vertices_bound_2 { (result.vertices ≤ at.vertices + 28) × (result.numbers ≤ at.numbers + 78) }
{
    let t = facet_at(mesh.facets, i);
    if all_marked(ids, t) {
        return share_facet(mesh, i, clip, ids, out_vertices, out_facets, at);
    }
    cut_facet(
        mesh.vertices,
        t,
        clip,
        polygon,
        spare,
        out_vertices,
        out_facets,
        at,
    )
}
