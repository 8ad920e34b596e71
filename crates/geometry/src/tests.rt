// What the methods of any triangle say of one of numbers, and what they answer.
ghost use Rattle.std.specs.Prelude.{◌≡◌, map};
ghost use Rattle.geometry.specs.Triangles.{contains_oriented_edge, sorted_vertices};
ghost use Rattle.geometry.specs.Numbers.{candidates_of, mesh_vertices_of};

use crate::numbers::{CandidateVertexId, MeshVertexId};
use crate::triangle::{CandidateTriangle, MeshTriangle, Triangle};

fn has_side(t: CandidateTriangle, from: CandidateVertexId, to: CandidateVertexId) -> bool
    ensures { result ≡ contains_oriented_edge (candidates_of t) from.0 to.0 }
{
    t.contains_oriented_edge(from, to)
}

fn in_order(t: MeshTriangle) -> [MeshVertexId; 3]
    ensures { map (λ v. v.0) result ≡ sorted_vertices (mesh_vertices_of t) }
{
    t.sorted_vertices()
}

fn candidates(a: usize, b: usize, c: usize) -> CandidateTriangle {
    Triangle {
        a: CandidateVertexId(a),
        b: CandidateVertexId(b),
        c: CandidateVertexId(c),
    }
}

#[test]
fn sides_as_they_run(rt: HostRuntime) {
    let t = candidates(7, 2, 5);
    assert!(&rt; has_side(t, CandidateVertexId(5), CandidateVertexId(7)));
    assert!(&rt; !has_side(t, CandidateVertexId(7), CandidateVertexId(5)));
    assert!(&rt; has_side(t.reversed(), CandidateVertexId(7), CandidateVertexId(5)));
    assert!(&rt; t.edges() == [(t.a, t.b), (t.b, t.c), (t.c, t.a)]);
    assert!(&rt; t.vertices() == [t.a, t.b, t.c]);
}

#[test]
fn corners_in_order(rt: HostRuntime) {
    let t = MeshTriangle {
        a: MeshVertexId(7),
        b: MeshVertexId(2),
        c: MeshVertexId(5),
    };
    assert!(&rt; in_order(t) == [MeshVertexId(2), MeshVertexId(5), MeshVertexId(7)]);
    assert!(&rt; in_order(t.reversed()) == in_order(t));
}
