// Points in a flat list of coordinates, three a point, and the vertices that lists of numbers name: here a raw number becomes a vertex's.
// Stays (C interface), point 6: the caller's lists are flat, three numbers a vertex and three a facet, and a vertex or a facet is named by its place.
ghost use Rattle.std.specs.Prelude.{◌≡◌, [], ◌∷◌, ◌+◌, ◌*◌, ◌<◌, length, get_or};
ghost use Rattle.std.proofs.lemmas.List.Edits.{sets};
ghost use Rattle.geometry.specs.Triangles.{corners_at};
ghost use Rattle.geometry.specs.Numbers.{mesh_vertices_of};
ghost use Rattle.geometry.specs.Meshes.{vertex_of};

use crate::numbers::MeshVertexId;
use crate::point::Point;
use crate::triangle::MeshTriangle;

// The k-th point.
pub fn point_at(coordinates: &[f64], k: usize) -> Point
    requires { 3 * k + 2 < length coordinates.now }
    ensures { result ≡ vertex_of coordinates.now k }
{
    Point {
        x: coordinates[3 * k],
        y: coordinates[3 * k + 1],
        z: coordinates[3 * k + 2],
    }
}

// The point of a vertex of the mesh.
pub fn vertex_at(vertices: &[f64], v: MeshVertexId) -> Point
    requires { 3 * v.0 + 2 < length vertices.now }
    ensures { result ≡ vertex_of vertices.now v.0 }
{
    point_at(vertices, v.0)
}

// The vertex that stands at the place k of a list of facets.
pub fn corner_at(facets: &[u32], k: usize) -> MeshVertexId
    requires { k < length facets.now }
    ensures { result.0 ≡ get_or facets.now k 0 }
{
    MeshVertexId(facets[k] as usize)
}

// The corners of the facet f.
pub fn facet_at(facets: &[u32], f: usize) -> MeshTriangle
    requires { 3 * f + 2 < length facets.now }
    ensures { mesh_vertices_of result ≡ corners_at facets.now (3 * f) }
{
    MeshTriangle {
        a: corner_at(facets, 3 * f),
        b: corner_at(facets, 3 * f + 1),
        c: corner_at(facets, 3 * f + 2),
    }
}

// The vertex whose number stands at the place k of a work room.
// Stays (plainer): `corner_at` for words of 64 bits; one function over `Into<MeshVertexId>` would say its vertex by what each conversion gives, and each caller unfold that to the number.
pub fn vertex_in(room: &[u64], k: usize) -> MeshVertexId
    requires { k < length room.now }
    ensures { result.0 ≡ get_or room.now k 0 }
{
    MeshVertexId(room[k] as usize)
}

// The facet whose corners stand in a work room from the place k on.
pub fn facet_in(room: &[u64], k: usize) -> MeshTriangle
    requires { k + 2 < length room.now }
    ensures { mesh_vertices_of result ≡ corners_at room.now k }
{
    MeshTriangle {
        a: vertex_in(room, k),
        b: vertex_in(room, k + 1),
        c: vertex_in(room, k + 2),
    }
}

// The three coordinates of p, from the place `at` on, where `point_at` reads them.
// Stays (plainer): `words::write_three` stores any three; over it each caller would take the point apart, and this crate uses none of words.
pub fn write_point(out: &mut [f64], at: usize, p: Point)
    requires { at + 2 < length out.old }
    ensures { out.new ≡ sets out.old at (p.x ∷ p.y ∷ p.z ∷ []) }
{
    out[at] = p.x;
    out[at + 1] = p.y;
    out[at + 2] = p.z;
}
