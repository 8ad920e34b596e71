// Test 11 (document 01, "Refusals").
ghost use Rattle.std.specs.Prelude.{◌≡◌, ◌+◌, ◌*◌, ◌≤◌, ◌<◌, length};
ghost use Rattle.lists.specs.Lists.{place};
ghost use Rattle.geometry.specs.Boxes.{face_of};
ghost use Rattle.box_faces.specs.Faces.{bit_count};
ghost use Rattle.candidate_pool.specs.Offsets.{open_edges_at};
ghost use Rattle.candidate_pool.specs.Standing.{faces_in, pool_at, edges_at};
ghost use Rattle.cap_triangles.specs.Selection.{caps_of};
ghost use Rattle.cap_triangles.specs.Listed.{missing_place, FirstPlace};
ghost use Rattle.cap_triangles.specs.Room.{CapReady};
ghost use Rattle.cap_pairs.specs.Pairs.{PairsKnown};
ghost use Rattle.cap_pairs.specs.Steps.{missing_face};

use box_faces::faces::FaceMask;
use cap_triangles::room::{CapRoom, SuppliedCaps};
use geometry::face::{BOX_FACES, BoxFace};

// Stays (plainer): that the counts of six faces are there is all that is asked of the room.
// A face that has three or more candidates and is not among those that hold the edge.
fn is_missing(w: &[u64], held: FaceMask, face: BoxFace) -> bool
    requires { 6 ≤ length w.now }
    ensures { result ≡ missing_face w.now held.0 (face_of face) }
{
    3 <= w[face.index()] && !held.contains(face)
}

// Of the mask's faces the place of the first such, if there is one.
fn first_missing(w: &[u64], mask: FaceMask, held: FaceMask) -> Option<usize>
    requires { 6 ≤ length w.now }
    ensures { FirstPlace (place (missing_face w.now held.0) (faces_in mask.0)) (bit_count mask.0) result }
{
    BOX_FACES
        .iter()
        .filter(|face| mask.contains(**face))
        .position(|face| is_missing(w, held, *face))
}

// 11: the place of the first such edge in the open-edge list, if there is one. The pairs are numbered, and the faces that hold them noted.
pub fn missing_place(w: &[u64], caps: SuppliedCaps<'_>) -> Option<usize>
    requires cap_ready { CapReady caps.n caps.nf caps.k caps.list.now w.now }
    requires pairs_known { PairsKnown caps.n caps.nf caps.k caps.list.now w.now }
    ensures { FirstPlace (missing_place (pool_at caps.entry.n w.now) (caps_of caps.entry.list.now) (edges_at w.now (open_edges_at caps.entry.n caps.entry.nf) caps.entry.k))
        (length (edges_at w.now (open_edges_at caps.entry.n caps.entry.nf) caps.entry.k)) result }
{
    let nc = caps.list.len() / 4;
    let room = CapRoom {
        n: caps.n,
        nf: caps.nf,
        nc,
        k: caps.k,
    };
    let edges = room.open_edges_at();
    let numbers = room.numbers_at();
    let held = room.held_at();
    let mut place = 0;
    for i in 0..caps.k {
        let mask = FaceMask(w[edges + 3 * i + 2]);
        let pair = w[numbers + i] as usize;
        if let Some(before) = first_missing(w, mask, FaceMask(w[held + pair])) {
            return Some(place + before);
        }
        place += mask.len();
    }
    None
}
