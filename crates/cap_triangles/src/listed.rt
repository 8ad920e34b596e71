// Test 10 (document 01, "Refusals").
ghost use Rattle.std.specs.Prelude.{◌≡◌, ◌&&◌, ◌||◌, ◌+◌, ◌*◌, ◌%◌, ◌≤◌, ◌<◌, eqb, length, get_or};
ghost use Rattle.geometry.specs.Boxes.{face_of};
ghost use Rattle.geometry.specs.Triangles.{tri};
ghost use Rattle.geometry.specs.Numbers.{candidates_of};
ghost use Rattle.candidate_pool.specs.Offsets.{entry_at};
ghost use Rattle.candidate_pool.specs.Standing.{count_at, pool_at};
ghost use Rattle.cap_triangles.specs.Selection.{caps_of};
ghost use Rattle.cap_triangles.specs.Listed.{bad_cap_place, FirstPlace};
ghost use Rattle.cap_triangles.specs.Room.{Pooled};
ghost use Rattle.cap_triangles.specs.Steps.{listed_in, bad_words};

use crate::room::SuppliedCaps;
use box_faces::faces::FaceMask;
use candidate_pool::room::entry_at;
use geometry::face::{BOX_FACES, BoxFace};
use geometry::numbers::CandidateVertexId;
use geometry::triangle::CandidateTriangle;

// The supplied triangle i: face and three candidates.
pub fn supplied(cap_list: &[u64], i: usize) -> CandidateTriangle
    requires { 4 * i + 3 < length cap_list.now }
    ensures { candidates_of result ≡ tri (get_or cap_list.now (4 * i + 1) 0) (get_or cap_list.now (4 * i + 2) 0) (get_or cap_list.now (4 * i + 3) 0) }
{
    CandidateTriangle {
        a: CandidateVertexId(cap_list[4 * i + 1] as usize),
        b: CandidateVertexId(cap_list[4 * i + 2] as usize),
        c: CandidateVertexId(cap_list[4 * i + 3] as usize),
    }
}

// Its face, where test 10 has seen that it is one.
pub fn supplied_face(cap_list: &[u64], i: usize) -> BoxFace
    requires { (4 * i < length cap_list.now) × (get_or cap_list.now (4 * i) 0 < 6) }
    ensures { face_of result ≡ get_or cap_list.now (4 * i) 0 }
{
    BOX_FACES[cap_list[4 * i] as usize]
}

fn has_repeat(t: CandidateTriangle) -> bool
    ensures { result ≡ (eqb t.a.0 t.b.0 || (eqb t.b.0 t.c.0 || eqb t.c.0 t.a.0)) }
{
    t.a == t.b || t.b == t.c || t.c == t.a
}

// The candidates that stand in the room.
#[derive(Clone, Copy)]
struct Candidates<'a> {
    w: &'a [u64],
    ghost entries: { entry_at (count_at w.now) ≤ length w.now },
}

impl Candidates<'_> {
    // A candidate is in a face's list exactly if it has the face's bit.
    #[tactic(auto, unfolding(crate::specs::Steps::listed_in))]
    fn is_listed(self, face: BoxFace, id: CandidateVertexId) -> bool
        ensures { result ≡ listed_in self.entry.w.now (face_of face) id.0 }
    {
        id.0 < self.w[6] as usize && FaceMask(self.w[entry_at(id) + 4]).contains(face)
    }

    fn all_listed(self, face: BoxFace, t: CandidateTriangle) -> bool
        ensures { result ≡
            (listed_in self.entry.w.now (face_of face) t.a.0 && (listed_in self.entry.w.now (face_of face) t.b.0 && listed_in self.entry.w.now (face_of face) t.c.0)) }
    {
        self.is_listed(face, t.a) && self.is_listed(face, t.b) && self.is_listed(face, t.c)
    }

    // "face above 5 or descending, a repeated candidate, or one not in that face's list": `last` is the number of the face of the triangle before.
    #[tactic(auto, unfolding(crate::specs::Steps::bad_words))]
    fn is_bad_cap(self, last: u64, number: u64, t: CandidateTriangle) -> bool
        ensures { result ≡ bad_words self.entry.w.now last number t.a.0 t.b.0 t.c.0 }
    {
        match BoxFace::try_from(number) {
            Ok(face) => number < last || has_repeat(t) || !self.all_listed(face, t),
            Err(_) => true,
        }
    }
}

// 10: the place of the first such triangle, if there is one.
pub fn bad_cap_place(w: &[u64], caps: SuppliedCaps<'_>) -> Option<usize>
    requires { Pooled caps.n w.now × (length caps.list.now % 4 ≡ 0) }
    ensures { FirstPlace (bad_cap_place (pool_at caps.entry.n w.now) (caps_of caps.entry.list.now)) (length (caps_of caps.entry.list.now)) result }
{
    let candidates = Candidates { w };
    let mut last = 0;
    for i in 0..caps.list.len() / 4 {
        let number = caps.list[4 * i];
        if candidates.is_bad_cap(last, number, supplied(caps.list, i)) {
            return Some(i);
        }
        last = number;
    }
    None
}
