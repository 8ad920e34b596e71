// What is written to the outputs. A store happens only where there is room, so that a pass that is lent no room only counts.
// Stays (C interface), point 6: C lends the two outputs, and a place in one may lie behind its end, where no part of it begins.
ghost use Rattle.std.specs.Prelude.{◌≡◌, [], ◌∷◌, ◌+◌, ◌*◌, ◌<◌, ◌≤◌, length};
ghost use Rattle.std.proofs.lemmas.List.Edits.{sets};
ghost use Rattle.geometry.specs.Meshes.{coordinates};
ghost use Rattle.geometry.specs.Triangles.{flat};
ghost use Rattle.aabb_facets.specs.Clipped.{fan};

use geometry::numbers::MeshVertexId;
use geometry::point::Point;
use words::put;

// `push_vertex`, as the vertex v
pub fn push_vertex(out: &mut [f64], v: MeshVertexId, p: Point)
    requires { v.0 < 4294967296 }
    ensures { out.new ≡ sets out.old (3 * v.0) (coordinates (p ∷ [])) }
{
    put(out, 3 * v.0, p.x);
    put(out, 3 * v.0 + 1, p.y);
    put(out, 3 * v.0 + 2, p.z);
}

// The corners of a polygon, from the vertex `base` on.
pub fn put_corners(out: &mut [f64], base: MeshVertexId, corners: &[Point])
    requires { (base.0 < 4294967000) × (length corners.now ≤ 28) }
    ensures { out.new ≡ sets out.old (3 * base.0) (coordinates corners.now) }
{
    for (j, p) in corners.iter().enumerate() {
        push_vertex(out, MeshVertexId(base.0 + j), *p);
    }
}

// n facets of a fan about the vertex `base`.
pub fn put_fan(out: &mut [u32], at: usize, base: MeshVertexId, n: usize)
    requires { (at < 4294967296) × ((base.0 < 4294967000) × (n ≤ 28)) }
    ensures { out.new ≡ sets out.old at (flat (fan base.0 n)) }
{
    for j in 0..n {
        let prev = base.0 + j + 1;
        put(out, at + 3 * j, base.0 as u32);
        put(out, at + 3 * j + 1, prev as u32);
        put(out, at + 3 * j + 2, (prev + 1) as u32);
    }
}
