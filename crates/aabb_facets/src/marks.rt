// One word of work room for each vertex: 0 outside the box; 1 inside; 2 + k inside, and shared as the new vertex k.
ghost use Rattle.std.specs.Prelude.{◌≡◌, [], ◌*◌, ◌<◌, ◌≤◌, length};
ghost use Rattle.lists.specs.Lists.{every};
ghost use Rattle.geometry.specs.Numbers.{mesh_vertices_of};
ghost use Rattle.geometry.specs.Meshes.{points_of};
ghost use Rattle.aabb_facets.specs.Clipped.{inside_box};
ghost use Rattle.aabb_facets.specs.Rooms.{all_marked, mark_words};

use aabb_planes::clip::Clip;
use geometry::numbers::MeshVertexId;
use geometry::triangle::MeshTriangle;
use geometry::vertices::vertex_at;

// Not inlined, so that the loop over the facets keeps its values in registers.
#[inline(never)]
pub fn mark_all(vertices: &[f64], clip: Clip, ids: &mut [u64])
    requires { 3 * length ids.old ≤ length vertices.now }
    ensures { ids.new ≡ mark_words vertices.now clip.extents clip.eps (length ids.old) [] }
{
    for (v, id) in ids.iter_mut().enumerate() {
        *id = clip.point_inside_aabb(vertex_at(vertices, MeshVertexId(v))) as u64;
    }
}

pub fn all_marked(ids: &[u64], t: MeshTriangle) -> bool
    requires { (t.a.0 < length ids.now) × ((t.b.0 < length ids.now) × (t.c.0 < length ids.now)) }
    ensures { result ≡ all_marked ids.now (mesh_vertices_of t) }
{
    ids[t.a.0] != 0 && ids[t.b.0] != 0 && ids[t.c.0] != 0
}

// No vertex is outside, so no facet is cut.
pub fn wholly_inside(vertices: &[f64], clip: Clip) -> bool
    ensures { result ≡ every (inside_box clip.extents clip.eps) (points_of vertices.now) }
{
    (0..vertices.len() / 3).all(|v| clip.point_inside_aabb(vertex_at(vertices, MeshVertexId(v))))
}
