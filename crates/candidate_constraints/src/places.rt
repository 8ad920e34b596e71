// Stays (C interface), point 6: the lists of the faces stand at places of the one room that C lends, and there is no heap.
// boundary_closure.rs, `candidate_to_local`: where each candidate stands in the list of the face worked on.
ghost use Rattle.std.specs.Prelude.{◌≡◌, ◌+◌, ◌*◌, ◌≤◌, ◌<◌, length, get_or};
ghost use Rattle.geometry.specs.Boxes.{face_of};
ghost use Rattle.candidate_constraints.specs.Steps.{Kept, Shown, Placed};
ghost use Rattle.candidate_pool.specs.Offsets.{places_at, side_at};

use candidate_pool::room::Room;
use geometry::face::BoxFace;
use geometry::numbers::{CandidateVertexId, FacePlace};

// The only way from a place to a candidate: what stands there in the face's list, which begins at `list`.
pub fn candidate_of_place(w: &[u64], list: usize, place: FacePlace) -> CandidateVertexId
    requires { list + place.0 < length w.now }
    ensures { result.0 ≡ get_or w.now (list + place.0) 0 }
{
    CandidateVertexId(w[list + place.0] as usize)
}

pub fn note_places(w: &mut [u64], room: Room, face: BoxFace)
    requires shown { Shown room.n w.old }
    requires fits { side_at room.n ≤ length w.old }
    ensures { Kept (places_at room.n) (side_at room.n) w.old w.new × Placed room.n (face_of face) w.new }
{
    let list = room.list_at(face);
    let places = room.places_at();
    let count = w[face.index()] as usize;
    for i in 0..count {
        let id = candidate_of_place(w, list, FacePlace(i));
        w[places + id.0] = i as u64;
    }
}

// The only way from a candidate to its place: the one noted.
pub fn place_of_candidate(w: &[u64], room: Room, id: CandidateVertexId) -> FacePlace
    requires { places_at room.n + id.0 < length w.now }
    ensures { result.0 ≡ get_or w.now (places_at room.n + id.0) 0 }
{
    FacePlace(w[room.places_at() + id.0] as usize)
}
