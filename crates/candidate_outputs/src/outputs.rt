// Stays (C interface), point 6: a list goes behind what was written in the output that C lends, and the open edges are read at places of the lent room; there is no heap.
// Test 12, and the four results in the outputs if there is room.
ghost use Rattle.std.specs.Prelude.{◌≡◌, [], ◌∷◌, map, ℕ, ◌+◌, ◌*◌, ◌≤◌, ◌<◌, length, get_or};
ghost use Rattle.std.proofs.lemmas.List.Edits.{sets};
ghost use Rattle.geometry.specs.Boxes.{face_of};
ghost use Rattle.candidate_pool.specs.OpenEdges.{open_edge_words};
ghost use Rattle.candidate_constraints.specs.Constraints.{constraint_words};
ghost use Rattle.candidate_pool.specs.Offsets.{pool_end};
ghost use Rattle.candidate_pool.specs.Standing.{edge_at, edges_at, pool_at};
ghost use Rattle.candidate_constraints.specs.Steps.{unpacked};
ghost use Rattle.candidate_outputs.specs.Outputs.{list_words, candidate_outputs};
ghost use Rattle.refusals.specs.Refusals.{documented_reply};
ghost use Rattle.refusals.specs.Answers.{Answer};
ghost use Rattle.candidate_outputs.specs.Written.{face_words, candidates_standing, Readable};

use box_faces::faces::FaceMask;
use candidate_pool::room::Room;
use geometry::face::{BOX_FACES, BoxFace};
use refusals::refusal::Refusal;
use refusals::reply::Reply;
use words::{copy_front, unpack_triple, write_three};

// These words, to out from `at` on.
fn write_words(words: &[u64], out: &mut [u64], at: usize)
    requires { at + length words.now ≤ length out.old }
    ensures { out.new ≡ sets out.old at words.now }
{
    copy_front(words, &mut out[at..at + words.len()]);
}

// How many numbers the six face lists have.
fn listed_numbers(w: &[u64], room: Room) -> usize
    requires in_bounds { 6 ≤ length w.now }
    requires by_index { (f : ℕ) → f < 6 → get_or w.now f 0 ≤ room.n }
    ensures { (result ≡ get_or w.now 0 0 + (get_or w.now 1 0 +
        (get_or w.now 2 0 + (get_or w.now 3 0 + (get_or w.now 4 0 + get_or w.now 5 0))))) × (result ≤ 6 * room.n) }
{
    (w[0] + (w[1] + (w[2] + (w[3] + (w[4] + w[5]))))) as usize
}

// "six counts, then the numbers"
fn write_face_lists(w: &[u64], room: Room, out: &mut [u64])
    requires n_bound { pool_end room.n ≤ length w.now }
    requires by_index { (f : ℕ) → f < 6 → get_or w.now f 0 ≤ room.n }
    requires w_in_bounds { length (list_words (pool_at room.n w.now).lists) ≤ length out.old }
    ensures { out.new ≡ sets out.old 0 (list_words (pool_at room.n w.now).lists) }
{
    write_words(&w[..6], out, 0);
    let mut at = 6;
    for face in BOX_FACES {
        let count = w[face.index()] as usize;
        let list = room.list_at(face);
        write_words(&w[list..list + count], out, at);
        at += count;
    }
}

// "face and two places"
fn write_constraints(keys: &[u64], out: &mut [u64])
    requires { 3 * length keys.now ≤ length out.old }
    ensures { out.new ≡ sets out.old 0 (constraint_words (map unpacked keys.now)) }
{
    let mut o = 0;
    for i in 0..keys.len() {
        let (a, b, c) = unpack_triple(keys[i]);
        write_three(out, o, a, b, c);
        o += 3;
    }
}

// "face and two candidates", if the face is one of those in the mask; where the next goes.
fn write_face(out: &mut [u64], at: usize, mask: FaceMask, face: BoxFace, a: u64, b: u64) -> usize
    requires { at + length (face_words mask.0 a b (face_of face)) ≤ length out.old }
    ensures { (result ≡ at + length (face_words mask.0 a b (face_of face))) × (out.new ≡ sets out.old at (face_words mask.0 a b (face_of face))) }
{
    if mask.contains(face) {
        write_three(out, at, face.index() as u64, a, b);
        at + 3
    } else {
        at
    }
}

// The same for each of the edge's faces.
fn write_edge(w: &[u64], edge: usize, out: &mut [u64], at: usize) -> usize
    requires edge_in_bounds { edge + 2 < length w.now }
    requires edge_in_bounds_2 { at + length (open_edge_words (edge_at w.now edge)) ≤ length out.old }
    ensures { (result ≡ at + length (open_edge_words (edge_at w.now edge))) × (out.new ≡ sets out.old at (open_edge_words (edge_at w.now edge))) }
{
    let mask = FaceMask(w[edge + 2]);
    let mut o = at;
    for face in BOX_FACES {
        o = write_face(out, o, mask, face, w[edge], w[edge + 1]);
    }
    o
}

// The same for each of the k open edges.
fn write_edges(w: &[u64], edges: usize, k: usize, out: &mut [u64])
    requires k_in_bounds { edges + 3 * k ≤ length w.now }
    requires k_in_bounds_2 { length (open_edge_words (edges_at w.now edges k)) ≤ length out.old }
    ensures { out.new ≡ sets out.old 0 (open_edge_words (edges_at w.now edges k)) }
{
    let mut o = 0;
    for i in 0..k {
        o = write_edge(w, edges + 3 * i, out, o);
    }
}

// For k open edges, listed with `listed` faces in all, and `total` constraints. Every length is known before the first output is written.
pub fn deliver(
    w: &[u64],
    room: Room,
    k: usize,
    listed: usize,
    total: usize,
    candidates: &mut [u64],
    face_lists: &mut [u64],
    constraints: &mut [u64],
    open_edges: &mut [u64],
) -> Reply<4>
    requires { Readable room.n room.nf k listed total w.now }
    ensures { Answer []
        (candidate_outputs (candidates_standing room.n room.nf k total w.now) candidates.old candidates.new face_lists.old face_lists.new
        constraints.old constraints.new open_edges.old open_edges.new) (documented_reply result) }
{
    let count = w[6] as usize;
    let c = 5 * count;
    let l = 6 + listed_numbers(w, room);
    let t = 3 * total;
    let e = 3 * listed;
    if candidates.len() < c {
        return Err(Refusal::NoRoom(c));
    }
    if face_lists.len() < l {
        return Err(Refusal::NoRoom(l));
    }
    if constraints.len() < t {
        return Err(Refusal::NoRoom(t));
    }
    if open_edges.len() < e {
        return Err(Refusal::NoRoom(e));
    }
    write_words(&w[8..8 + c], candidates, 0);
    write_face_lists(w, room, face_lists);
    let keys = room.constraints_at();
    write_constraints(&w[keys..keys + total], constraints);
    write_edges(w, room.open_edges_at(), k, open_edges);
    Ok([c, l, t, e])
}
