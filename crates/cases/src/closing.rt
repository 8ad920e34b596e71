// C3b, C10 and C13: the operation candidates.
ghost use Rattle.std.specs.Prelude.{◌≡◌, length};
ghost use Rattle.refusals.specs.Refusals.{documented_reply};
ghost use Rattle.cases.specs.Closing.{box_to, Listing, facet_reply, is_later, cut_in, is_too_fine, c3b_holds, c10_holds, c13_holds};

use crate::listed::{is_alone, place_of};
use crate::replies::has_lengths;
use boundary_closure::cap_candidates;
use candidate_surface::asked::Asked;
use geometry::aabb::AABB;
use geometry::face::Axis;
use geometry::mesh::MeshLists;
use input_tests::grid::Grid;
use refusals::refusal::Refusal;
use refusals::reply::Reply;

// 1/1024
const EPS: f64 = 0.0009765625;

// The points whose coordinates are -3/8192 and 3/8192, by their bits.
const EARLIER: [u64; 3] = [13778763059940032512; 3];

const LATER: [u64; 3] = [4555391023085256704; 3];

// Five words for each of the four points at each of 257 places along an axis.
const WORDS_OF_257: usize = 5140;

// Of the outputs only the list of candidates is looked at.
pub fn list_candidates(
    mesh: MeshLists<'_>,
    asked: Asked,
    work: &mut [u64],
    candidates: &mut [u64],
) -> Reply<4>
    ensures { Listing mesh.entry.vertices.now mesh.entry.facets.now asked (length work.old) (documented_reply result) candidates.old candidates.new }
{
    let mut face_lists = [0u64; 8192];
    let mut constraints = [0u64; 8192];
    let mut open_edges = [0u64; 8192];
    cap_candidates(
        mesh,
        asked,
        65536,
        work,
        candidates,
        &mut face_lists,
        &mut constraints,
        &mut open_edges,
    )
}

pub fn box_to(x: f64, y: f64, z: f64) -> AABB
    ensures { result ≡ box_to x y z }
{
    AABB {
        min_corner: [0.0, 0.0, 0.0],
        max_corner: [x, y, z],
    }
}

// "one candidate, the later point": none lies at the earlier one, and no other is there or comes from either vertex. Zeros behind the list say neither.
#[tactic(auto, unfolding(crate::specs::Closing::is_later), using(crate::proofs::Rows::found_below))]
fn is_later_point(candidates: &[u64]) -> bool
    ensures { result ≡ is_later candidates.now }
{
    if place_of(candidates, EARLIER).is_some() {
        return false;
    }
    match place_of(candidates, LATER) {
        Some(at) => candidates[5 * at + 3] == 2 && is_alone(candidates, LATER, at),
        None => false,
    }
}

pub fn c3b() -> bool
    ensures { result ≡ c3b_holds }
{
    let points = [
        -0.0003662109375,
        -0.0003662109375,
        -0.0003662109375,
        0.0003662109375,
        0.0003662109375,
        0.0003662109375,
        0.0,
        1.0,
        0.0,
    ];
    let facet = [0, 1, 2];
    let mut work = [0u64; 8192];
    let mut candidates = [0u64; 8192];
    let mesh = MeshLists {
        vertices: &points,
        facets: &facet,
    };
    let asked = Asked {
        extents: box_to(1.0, 1.0, 1.0),
        eps: EPS,
        resolution: 1.0,
    };
    let reply = list_candidates(mesh, asked, &mut work, &mut candidates);
    has_lengths(reply, &[]) && is_later_point(&candidates)
}

// Facet (0,0,0), (1,0,0), (0,1,0), whose open edges lie on ZMin.
#[tactic(auto, unfolding(crate::specs::Closing::facet_reply))]
fn reply_to_facet(asked: Asked, work: &mut [u64]) -> Reply<4>
    ensures { documented_reply result ≡ facet_reply asked (length work.old) }
{
    let points = [0.0, 0.0, 0.0, 1.0, 0.0, 0.0, 0.0, 1.0, 0.0];
    let facet = [0, 1, 2];
    let mut candidates = [0u64; 8192];
    let mesh = MeshLists {
        vertices: &points,
        facets: &facet,
    };
    list_candidates(mesh, asked, work, &mut candidates)
}

// "not refused by 9", nor by any other
pub fn c10() -> bool
    ensures { result ≡ c10_holds }
{
    let mut work = [0u64; 8192];
    let asked = Asked {
        extents: box_to(2.0, 2.0, 2.0),
        eps: 0.0000000001,
        resolution: 2.0,
    };
    has_lengths(reply_to_facet(asked, &mut work), &[])
}

// The grid is not too fine, and has n segments along x.
#[tactic(auto, unfolding(crate::specs::Closing::cut_in))]
fn is_cut_in(grid: Grid, n: usize) -> bool
    ensures { result ≡ cut_in grid n }
{
    match grid.cut() {
        Some(cuts) => cuts.along(Axis::X) == n,
        None => false,
    }
}

// 6
// Stays (plainer): as `is_key_range`.
#[tactic(auto, unfolding(refusals::specs::Refusals::documented_reply, refusals::specs::Refusals::documented))]
fn is_too_fine(reply: Reply<4>) -> bool
    ensures { result ≡ is_too_fine (documented_reply reply) }
{
    matches!(reply, Err(Refusal::GridTooFine))
}

// "256 segments", and "refusal 6"
pub fn c13() -> bool
    ensures { result ≡ c13_holds }
{
    // 128 × (3 + 1 + 2064) + 1,024: G is 2 × (257 × 2 + 257 × 2 + 2 × 2)
    let mut work = [0u64; 265728];
    let asked = Asked {
        extents: box_to(256.0, 1.0, 1.0),
        eps: 0.0,
        resolution: 1.0,
    };
    // 6 comes before 7
    let mut little = [0u64; 1024];
    let finer = Asked {
        extents: box_to(257.0, 1.0, 1.0),
        ..asked
    };
    is_cut_in(asked.grid(), 256)
        && has_lengths(reply_to_facet(asked, &mut work), &[WORDS_OF_257])
        && is_too_fine(reply_to_facet(finer, &mut little))
}
