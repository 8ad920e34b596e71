// C15: the unit cube cut by a square at height 0.5, closed below and above it.
ghost use Rattle.std.specs.Prelude.{◌≡◌, ◌<◌};
ghost use Rattle.root.specs.Doubles.{one_f, 1e-10};
ghost use Rattle.refusals.specs.Refusals.{documented_reply};
ghost use Rattle.candidate_surface.specs.Asked.{asked};
ghost use Rattle.cases.specs.Closing.{box_to};
ghost use Rattle.cases.specs.Halves.{half_point, candidate_at, cap_word, cap_list_of, is_point, has_facets, is_half, closes_to, closes_both, c15_holds};

use crate::bits::{begins_with, bits};
use crate::closing::{box_to, list_candidates};
use crate::listed::place_of;
use crate::replies::has_lengths;
use candidate_surface::asked::Asked;
use caps::cap_mesh_to_aabb;
use caps::mode::BoundaryClosure;
use geometry::mesh::MeshLists;
use refusals::reply::Reply;

const EPS: f64 = 0.0000000001;

// The triangles: a face and three points each, turned outward. Side faces have two below and two above, bottom and top two each.
const TRIANGLES: [usize; 80] = [
    0, 0, 4, 7, 0, 0, 7, 3, 0, 4, 8, 11, 0, 4, 11, 7, 1, 1, 2, 6, 1, 1, 6, 5, 1, 5, 6, 10, 1, 5,
    10, 9, 2, 0, 1, 5, 2, 0, 5, 4, 2, 4, 5, 9, 2, 4, 9, 8, 3, 3, 7, 6, 3, 3, 6, 2, 3, 7, 11, 10, 3,
    7, 10, 6, 4, 0, 3, 2, 4, 0, 2, 1, 5, 8, 9, 10, 5, 8, 10, 11,
];

// The square, then the ten caps of the lower half.
const LOWER: [usize; 36] = [
    4, 5, 6, 4, 6, 7, 0, 4, 7, 0, 7, 3, 1, 2, 6, 1, 6, 5, 0, 1, 5, 0, 5, 4, 3, 7, 6, 3, 6, 2, 0, 3,
    2, 0, 2, 1,
];

// The square, turned, then the ten caps of the upper half.
const UPPER: [usize; 36] = [
    4, 6, 5, 4, 7, 6, 4, 8, 11, 4, 11, 7, 5, 6, 10, 5, 10, 9, 4, 5, 9, 4, 9, 8, 7, 11, 10, 7, 10,
    6, 8, 9, 10, 8, 10, 11,
];

// The twelve points: (0,0), (1,0), (1,1) and (0,1) at heights 0, 0.5 and 1, numbered here from 0 to 11.
const POINTS: [[f64; 3]; 12] = [
    [0.0, 0.0, 0.0],
    [1.0, 0.0, 0.0],
    [1.0, 1.0, 0.0],
    [0.0, 1.0, 0.0],
    [0.0, 0.0, 0.5],
    [1.0, 0.0, 0.5],
    [1.0, 1.0, 0.5],
    [0.0, 1.0, 0.5],
    [0.0, 0.0, 1.0],
    [1.0, 0.0, 1.0],
    [1.0, 1.0, 1.0],
    [0.0, 1.0, 1.0],
];

// The square at height 0.5, as a mesh.
const SQUARE: [f64; 12] = [0.0, 0.0, 0.5, 1.0, 0.0, 0.5, 1.0, 1.0, 0.5, 0.0, 1.0, 0.5];

const FACETS: [u32; 6] = [0, 1, 2, 0, 2, 3];

#[tactic(auto, unfolding(crate::specs::Halves::half_point))]
fn point(p: usize) -> [f64; 3]
    ensures { result ≡ half_point p }
{
    POINTS[p.min(11)]
}

// The number of the candidate at a point.
#[tactic(auto, unfolding(crate::specs::Halves::candidate_at))]
fn candidate_at(candidates: &[u64], point: [f64; 3]) -> Option<usize>
    ensures { result ≡ candidate_at candidates.now point }
{
    let [x, y, z] = point;
    place_of(candidates, [bits(x), bits(y), bits(z)])
}

// Word i of the cap list: a face, or a point's candidate. Where none is at the point, no candidate has the number that is written.
fn cap_word(candidates: &[u64], i: usize) -> u64
    requires { i < 80 }
    ensures { result ≡ cap_word candidates.now i }
{
    if i % 4 == 0 {
        return TRIANGLES[i] as u64;
    }
    candidate_at(candidates, point(TRIANGLES[i])).unwrap_or(candidates.len() / 5) as u64
}

// The triangles as a cap list.
fn list_triangles(candidates: &[u64]) -> [u64; 80]
    ensures { result ≡ cap_list_of candidates.now }
{
    let mut list = [0u64; 80];
    for i in 0..80 {
        list[i] = cap_word(candidates, i);
    }
    list
}

// Vertex v is there, and stands at this point.
#[tactic(auto, unfolding(crate::specs::Halves::is_point))]
fn is_point(vertices: &[f64], v: u32, point: [f64; 3]) -> bool
    ensures { result ≡ is_point vertices.now v point }
{
    let v = v as usize;
    v < vertices.len() / 3 && begins_with(&vertices[3 * v..], &point)
}

// Each corner of each facet is the stated point.
fn has_facets(vertices: &[f64], facets: &[u32; 36], stated: &[usize; 36]) -> bool
    ensures { result ≡ has_facets vertices.now facets.now stated.now }
{
    facets
        .iter()
        .zip(stated)
        .all(|(v, p)| is_point(vertices, *v, point(*p)))
}

// The reply is eight vertices and twelve facets, the stated ones.
#[tactic(auto, unfolding(crate::specs::Halves::is_half))]
fn is_half(reply: Reply<2>, vertices: &[f64], facets: &[u32; 36], stated: &[usize; 36]) -> bool
    ensures { result ≡ is_half (documented_reply reply) vertices.now facets.now stated.now }
{
    has_lengths(reply, &[24, 36]) && has_facets(vertices, facets, stated)
}

fn asked_of_cube() -> Asked
    ensures { result ≡ asked (box_to one_f one_f one_f) 1e-10 one_f }
{
    Asked {
        extents: box_to(1.0, 1.0, 1.0),
        eps: EPS,
        resolution: 1.0,
    }
}

fn closes_to(mode: BoundaryClosure, list: &[u64; 80], stated: &[usize; 36]) -> bool
    ensures { result ≡ closes_to mode list.now stated.now }
{
    let mut work = [0u64; 8192];
    let mut out_vertices = [0.0; 24];
    let mut out_facets = [0u32; 36];
    let mesh = MeshLists {
        vertices: &SQUARE,
        facets: &FACETS,
    };
    let reply = cap_mesh_to_aabb(
        mesh,
        list,
        asked_of_cube(),
        mode,
        65536,
        &mut work,
        &mut out_vertices,
        &mut out_facets,
    );
    is_half(reply, &out_vertices, &out_facets, stated)
}

#[tactic(auto, unfolding(crate::specs::Halves::closes_both))]
fn closes_both(candidates: &[u64]) -> bool
    ensures { result ≡ closes_both candidates.now }
{
    let list = list_triangles(candidates);
    closes_to(BoundaryClosure::ClosePositive, &list, &LOWER)
        && closes_to(BoundaryClosure::CloseNegative, &list, &UPPER)
}

pub fn c15() -> bool
    ensures { result ≡ c15_holds }
{
    let mut work = [0u64; 8192];
    let mut candidates = [0u64; 60];
    let mesh = MeshLists {
        vertices: &SQUARE,
        facets: &FACETS,
    };
    let reply = list_candidates(mesh, asked_of_cube(), &mut work, &mut candidates);
    has_lengths(reply, &[60]) && closes_both(&candidates)
}
