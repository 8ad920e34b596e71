// Stays (C interface), point 6: words of faces stand at places of the one room that C lends, and there is no heap.
// What is known of each pair of candidates: the faces of its open edges, by the way that they run, and of the triangles that hold it.
ghost use Rattle.std.specs.Prelude.{◌≡◌, ℕ, ◌+◌, ◌*◌, ◌/◌, ◌<◌, cond, eqb, ltb, length, get_or};
ghost use Rattle.lists.specs.Regions.{Above};
ghost use Rattle.geometry.specs.Boxes.{face_of};
ghost use Rattle.box_faces.specs.Faces.{has_bit};
ghost use Rattle.cap_triangles.specs.Room.{CapReady, numbers_at, up_at, down_at, held_at};
ghost use Rattle.cap_pairs.specs.Pairs.{PairNumbers, PairsKnown};
ghost use Rattle.cap_pairs.specs.Steps.{Added, Noted, edge_mask, edge_target, side_target, side_face, TablesFor};

use box_faces::faces::FaceMask;
use cap_triangles::listed::supplied_face;
use cap_triangles::room::{CapRoom, SuppliedCaps};
use geometry::face::{BOX_FACES, BoxFace};
use words::zero_part;

fn add_face(w: &mut [u64], at: usize, face: BoxFace)
    requires { (at < length w.old) × (get_or w.old at 0 < 64) }
    ensures { Added w.old w.new at (eqb (face_of face)) }
{
    let faces = w[at];
    if FaceMask(faces).contains(face) {
        return;
    }
    w[at] = faces + (1 << face.index());
}

fn add_faces(w: &mut [u64], at: usize, mask: FaceMask)
    requires { (at < length w.old) × (get_or w.old at 0 < 64) }
    ensures { Added w.old w.new at (has_bit mask.0) }
{
    for face in BOX_FACES {
        if mask.contains(face) {
            add_face(w, at, face);
        }
    }
}

// Of two tables the one for the way that an open edge runs.
fn way_at(w: &[u64], at: usize, up: usize, down: usize) -> usize
    requires { at + 1 < length w.now }
    ensures { result ≡ cond (ltb (get_or w.now at 0) (get_or w.now (at + 1) 0)) up down }
{
    if w[at] < w[at + 1] { up } else { down }
}

// The faces of an open edge that runs from one candidate to another; one that begins where it ends runs neither way.
fn edge_faces(w: &[u64], at: usize) -> FaceMask
    requires { at + 2 < length w.now }
    ensures { result.0 ≡ cond (eqb (get_or w.now at 0) (get_or w.now (at + 1) 0)) 0 (get_or w.now (at + 2) 0) }
{
    let mask = if w[at] == w[at + 1] { 0 } else { w[at + 2] };
    FaceMask(mask)
}

// Stays (plainer): `note_edges` and `note_sides` have nothing in common but the loop: one takes faces from a word of the room, one from the caller's list.
// Of each pair the faces of its open edges, by the way that they run. An edge that kept one end has no face, and its pair no triangle.
fn note_edges(w: &mut [u64], room: CapRoom)
    requires tables_for { TablesFor room.n room.nf room.nc w.old room.k }
    requires by_index { (i : ℕ) → i < room.k → get_or w.old (numbers_at room.n room.nf room.nc + i) 0 < room.k + 3 * room.nc }
    requires by_index_2 { (r : ℕ) → r < room.k + 3 * room.nc
        → (get_or w.old (up_at room.n room.nf room.nc + r) 0 ≡ 0) × (get_or w.old (down_at room.n room.nf room.nc + r) 0 ≡ 0) }
    ensures { Noted (edge_target room.n room.nf room.nc w.old) (λ j. has_bit (edge_mask room.n room.nf room.nc w.old j)) w.old w.new room.k }
{
    let edges = room.open_edges_at();
    let numbers = room.numbers_at();
    let up = room.up_at();
    let down = room.down_at();
    for i in 0..room.k {
        let table = way_at(w, edges + 3 * i, up, down);
        let pair = w[numbers + i] as usize;
        let mask = edge_faces(w, edges + 3 * i);
        add_faces(w, table + pair, mask);
    }
}

// Of each pair the faces of the triangles that hold it.
fn note_sides(w: &mut [u64], caps: SuppliedCaps<'_>)
    requires tables_for { TablesFor caps.n caps.nf (length caps.list.now / 4) w.old caps.k }
    requires by_index { (s : ℕ) → s < 3 * (length caps.list.now / 4)
        → get_or w.old (numbers_at caps.n caps.nf (length caps.list.now / 4) + caps.k + s) 0 < caps.k + 3 * (length caps.list.now / 4) }
    requires by_index_2 { (r : ℕ) → r < caps.k + 3 * (length caps.list.now / 4) → get_or w.old (held_at caps.n caps.nf (length caps.list.now / 4) + r) 0 ≡ 0 }
    requires by_index_3 { (s : ℕ) → s < 3 * (length caps.list.now / 4) → side_face caps.list.now s < 6 }
    ensures { Noted (side_target caps.entry.n caps.entry.nf (length caps.entry.list.now / 4) w.old caps.entry.k) (λ s. eqb (side_face caps.entry.list.now s))
        w.old w.new (3 * (length caps.entry.list.now / 4)) }
{
    let nc = caps.list.len() / 4;
    let room = CapRoom {
        n: caps.n,
        nf: caps.nf,
        nc,
        k: caps.k,
    };
    let numbers = room.numbers_at() + caps.k;
    let held = room.held_at();
    for s in 0..3 * nc {
        let pair = w[numbers + s] as usize;
        add_face(w, held + pair, supplied_face(caps.list, s / 3));
    }
}

pub fn note_faces(w: &mut [u64], caps: SuppliedCaps<'_>)
    requires cap_ready { CapReady caps.n caps.nf caps.k caps.list.now w.old }
    requires pair_numbers { PairNumbers caps.n caps.nf caps.k caps.list.now w.old }
    ensures { Above (up_at caps.entry.n caps.entry.nf (length caps.entry.list.now / 4)) w.old w.new × PairsKnown caps.entry.n caps.entry.nf caps.entry.k caps.entry.list.now w.new }
{
    let nc = caps.list.len() / 4;
    let room = CapRoom {
        n: caps.n,
        nf: caps.nf,
        nc,
        k: caps.k,
    };
    let pairs = caps.k + 3 * nc;
    zero_part(w, room.up_at(), pairs);
    zero_part(w, room.down_at(), pairs);
    zero_part(w, room.held_at(), pairs);
    note_edges(w, room);
    note_sides(w, caps);
}
