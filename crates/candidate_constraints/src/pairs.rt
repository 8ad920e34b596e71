// Stays (C interface), point 6: pairs and open edges stand at places of the one room that C lends, and there is no heap.
// boundary_closure.rs, `build_face_cdt`: pairs of places, and those of the open edges.
ghost use Rattle.std.specs.Prelude.{◌≡◌, ◌+◌, ◌*◌, ◌≤◌, ◌<◌, length};
ghost use Rattle.geometry.specs.Boxes.{face_of};
ghost use Rattle.records.specs.Buffer.{put_record};
ghost use Rattle.candidate_pool.specs.Offsets.{pairs_at, open_edges_at};
ghost use Rattle.candidate_pool.specs.Standing.{pool_at, edge_at, edges_at, EdgesHeld};
ghost use Rattle.candidate_constraints.specs.Steps.{Shown, Roomy, Placed, pair_key, pair_record, edge_pairs, Pushed};

use crate::places::place_of_candidate;
use box_faces::faces::FaceMask;
use candidate_pool::room::Room;
use geometry::face::BoxFace;
use geometry::numbers::{CandidateVertexId, FacePlace};
use words::pack_triple;

// "smaller place first"
fn pair_key(face: BoxFace, a: FacePlace, b: FacePlace) -> u64
    requires { (a.0 < 2097152) × (b.0 < 2097152) }
    ensures { result ≡ pair_key (face_of face) (a.0, b.0) }
{
    pack_triple(
        face.index() as u64,
        a.0.min(b.0) as u64,
        a.0.max(b.0) as u64,
    )
}

// Stays (plainer): that a record's two words are in the room is all that is asked of its place.
pub fn put_pair(w: &mut [u64], at: usize, face: BoxFace, a: FacePlace, b: FacePlace)
    requires { (at + 1 < length w.old) × (a.0 < 2097152) × (b.0 < 2097152) }
    ensures { w.new ≡ put_record w.old at (pair_record (face_of face) (a.0, b.0)) }
{
    w[at] = pair_key(face, a, b);
    w[at + 1] = 0;
}

// The room with k open edges in it.
#[derive(Clone, Copy)]
pub struct EdgedRoom {
    pub room: Room,
    pub k: usize,
    pub ghost few: { k ≤ 3 * room.nf },
}

// The places of open edge i where the face is one of the edge's, behind c pairs.
fn push_open_edge(w: &mut [u64], room: Room, i: usize, face: BoxFace, c: usize) -> usize
    requires shown { Shown room.n w.old }
    requires roomy { Roomy room.n room.nf w.old }
    requires placed { Placed room.n (face_of face) w.old }
    requires edges_held { EdgesHeld (pool_at room.n w.old) w.old (open_edges_at room.n room.nf) (i + 1) }
    requires bounds { (i < 3 * room.nf) × (c < 4 * room.n + 3 * room.nf) }
    ensures { Pushed room.n (face_of face) (pairs_at room.n + 2 * c) 1
        (edge_pairs (pool_at room.n w.old) (face_of face) (edge_at w.old (open_edges_at room.n room.nf + 3 * i))) c result w.old w.new }
{
    let at = room.open_edges_at() + 3 * i;
    let mask = FaceMask(w[at + 2]);
    if mask.contains(face) {
        let a = place_of_candidate(w, room, CandidateVertexId(w[at] as usize));
        let b = place_of_candidate(w, room, CandidateVertexId(w[at + 1] as usize));
        put_pair(w, room.pairs_at() + 2 * c, face, a, b);
        c + 1
    } else {
        c
    }
}

// The places of all open edges of the face, behind `count` pairs.
pub fn push_open_edges(w: &mut [u64], edged: EdgedRoom, face: BoxFace, count: usize) -> usize
    requires shown { Shown edged.room.n w.old }
    requires roomy { Roomy edged.room.n edged.room.nf w.old }
    requires placed { Placed edged.room.n (face_of face) w.old }
    requires edges_held { EdgesHeld (pool_at edged.room.n w.old) w.old (open_edges_at edged.room.n edged.room.nf) edged.k }
    requires few { count ≤ 4 * edged.room.n }
    ensures { Pushed edged.room.n (face_of face) (pairs_at edged.room.n + 2 * count) edged.k
        (edge_pairs (pool_at edged.room.n w.old) (face_of face) (edges_at w.old (open_edges_at edged.room.n edged.room.nf) edged.k)) count result w.old
        w.new }
{
    let mut c = count;
    for i in 0..edged.k {
        c = push_open_edge(w, edged.room, i, face, c);
    }
    c
}
