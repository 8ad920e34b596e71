// Stays (C interface), point 6: the tables of a side and of a component stand at places of the one room that C lends, and there is no heap.
// Seeds, and the components that hold one.
ghost use Rattle.std.specs.Prelude.{◌≡◌, ◌+◌, ◌*◌, ◌/◌, ◌<◌, eqb, length, get_or};
ghost use Rattle.geometry.specs.Boxes.{face_of};
ghost use Rattle.cap_triangles.specs.Room.{components_at, seeded_at, CapReady};
ghost use Rattle.cap_pairs.specs.Pairs.{PairsKnown};
ghost use Rattle.cap_selection.specs.Chosen.{Chosen};
ghost use Rattle.cap_selection.specs.Steps.{against_in, seed_in, marked_seed, SidesNumbered, Markable, SeedsMarked};

use crate::labels::join_caps;
use box_faces::faces::FaceMask;
use cap_triangles::listed::supplied_face;
use cap_triangles::room::{CapRoom, SuppliedCaps};
use edges::next_side;
use geometry::face::BoxFace;
use words::zero_part;

// An open edge of the face runs against side s.
fn is_against(w: &[u64], room: CapRoom, s: usize, face: BoxFace) -> bool
    requires { SidesNumbered room.n room.nf room.nc room.k w.now × (s < 3 * room.nc) }
    ensures { result ≡ against_in room.n room.nf room.nc room.k w.now s (face_of face) }
{
    let turned = room.turned_at();
    let pair = w[room.numbers_at() + room.k + s] as usize;
    if w[turned + s] < w[turned + next_side(s)] {
        FaceMask(w[room.down_at() + pair]).contains(face)
    } else {
        FaceMask(w[room.up_at() + pair]).contains(face)
    }
}

// "A seed lies on an open edge's face and, so turned, holds that edge backwards"
#[tactic(auto, unfolding(crate::specs::Steps::seed_in))]
fn is_seed(w: &[u64], room: CapRoom, i: usize, face: BoxFace) -> bool
    requires { SidesNumbered room.n room.nf room.nc room.k w.now × (i < room.nc) }
    ensures { result ≡ seed_in room.n room.nf room.nc room.k w.now i (face_of face) }
{
    is_against(w, room, 3 * i, face)
        || is_against(w, room, 3 * i + 1, face)
        || is_against(w, room, 3 * i + 2, face)
}

// If triangle i is a seed, its component is marked.
fn mark_seed(w: &mut [u64], room: CapRoom, i: usize, face: BoxFace)
    requires { SidesNumbered room.n room.nf room.nc room.k w.old × (i < room.nc) × (get_or w.old (components_at room.n room.nf room.nc + i) 0 < room.nc) }
    ensures { w.new ≡ marked_seed room.n room.nf room.nc room.k w.old i (face_of face) }
{
    if !is_seed(w, room, i, face) {
        return;
    }
    let component = w[room.components_at() + i] as usize;
    w[room.seeded_at() + component] = 1;
}

// Of each component 1 if a seed has it.
fn mark_seeds(w: &mut [u64], caps: SuppliedCaps<'_>)
    requires { Markable caps.n caps.nf (length caps.list.now / 4) caps.k caps.list.now w.old }
    ensures { SeedsMarked caps.entry.n caps.entry.nf (length caps.entry.list.now / 4) caps.entry.k caps.entry.list.now w.old w.new }
{
    let nc = caps.list.len() / 4;
    let room = CapRoom {
        n: caps.n,
        nf: caps.nf,
        nc,
        k: caps.k,
    };
    for i in 0..nc {
        mark_seed(w, room, i, supplied_face(caps.list, i));
    }
}

// `select_closed_plus`: the seeds and all that is joined to one.
pub fn select_caps(w: &mut [u64], caps: SuppliedCaps<'_>)
    requires cap_ready { CapReady caps.n caps.nf caps.k caps.list.now w.old }
    requires pairs_known { PairsKnown caps.n caps.nf caps.k caps.list.now w.old }
    ensures { Chosen caps.entry.n caps.entry.nf caps.entry.k caps.entry.list.now w.old w.new }
{
    let nc = caps.list.len() / 4;
    let room = CapRoom {
        n: caps.n,
        nf: caps.nf,
        nc,
        k: caps.k,
    };
    join_caps(w, room);
    zero_part(w, room.seeded_at(), nc);
    mark_seeds(w, caps);
}

// Triangle i is a seed, or joined to one.
pub fn is_selected(w: &[u64], room: CapRoom, i: usize) -> bool
    requires { (components_at room.n room.nf room.nc + i < length w.now) ×
        (seeded_at room.n room.nf room.nc + get_or w.now (components_at room.n room.nf room.nc + i) 0 < length w.now) }
    ensures { result ≡ eqb (get_or w.now (seeded_at room.n room.nf room.nc + get_or w.now (components_at room.n room.nf room.nc + i) 0) 0) 1 }
{
    let component = w[room.components_at() + i] as usize;
    w[room.seeded_at() + component] == 1
}
