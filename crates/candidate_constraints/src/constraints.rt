// Stays (C interface), point 6: pairs and constraints stand at places of the one room that C lends, and there is no heap.
// boundary_closure.rs, `build_face_cdt` and `add_face_box_boundary_constraints`: pairs of places, one face after the other.
ghost use Rattle.std.specs.Prelude.{◌+◌, ◌*◌, ◌≤◌, ◌<◌, length};
ghost use Rattle.geometry.specs.Boxes.{face_of};
ghost use Rattle.candidate_pool.specs.Offsets.{places_at, open_edges_at, room_end};
ghost use Rattle.candidate_pool.specs.Standing.{pool_at, edges_at, Holds, EdgesHeld};
ghost use Rattle.candidate_constraints.specs.Steps.{Constrained, Shown, Roomy, all_pairs, Pushed, FaceListed};

use crate::distinct::keep_distinct;
use crate::pairs::{EdgedRoom, push_open_edges};
use crate::places::note_places;
use crate::side::push_sides;
use aabb_planes::clip::Clip;
use candidate_pool::room::Room;
use geometry::face::{BOX_FACES, BoxFace};
use sorting::sort_records;

// All pairs of a face, in the order of the definition; how many they are.
fn list_pairs(w: &mut [u64], edged: EdgedRoom, face: BoxFace, clip: Clip) -> usize
    requires shown { Shown edged.room.n w.old }
    requires roomy { Roomy edged.room.n edged.room.nf w.old }
    requires edges_held { EdgesHeld (pool_at edged.room.n w.old) w.old (open_edges_at edged.room.n edged.room.nf) edged.k }
    ensures { Pushed edged.room.n (face_of face) (places_at edged.room.n) (4 * edged.room.n + 3 * edged.room.nf)
        (all_pairs clip.extents clip.eps (pool_at edged.room.n w.old) (face_of face) (edges_at w.old (open_edges_at edged.room.n edged.room.nf) edged.k)) 0 result w.old w.new }
{
    note_places(w, edged.room, face);
    let c = push_sides(w, edged.room, face, clip);
    push_open_edges(w, edged, face, c)
}

// "none on a face with under three candidates"
fn face_constraints(
    w: &mut [u64],
    edged: EdgedRoom,
    face: BoxFace,
    clip: Clip,
    total: usize,
) -> usize
    requires shown { Shown edged.room.n w.old }
    requires roomy { Roomy edged.room.n edged.room.nf w.old }
    requires edges_held { EdgesHeld (pool_at edged.room.n w.old) w.old (open_edges_at edged.room.n edged.room.nf) edged.k }
    requires fits { total + (4 * edged.room.n + 3 * edged.room.nf) ≤ 24 * edged.room.n + 18 * edged.room.nf }
    ensures { FaceListed clip.extents clip.eps edged.room.n edged.room.nf edged.k (face_of face) total result w.old w.new }
{
    let few = w[face.index()] < 3;
    if few {
        return total;
    }
    let c = list_pairs(w, edged, face, clip);
    let pairs = edged.room.pairs_at();
    sort_records(&mut w[pairs..pairs + 4 * c], c);
    keep_distinct(w, edged.room, c, total)
}

// The constraints of all six faces; how many they are.
pub fn all_constraints(w: &mut [u64], room: Room, k: usize, clip: Clip) -> usize
    requires holds { Holds clip.eps room.n w.old }
    requires edges_held { EdgesHeld (pool_at room.n w.old) w.old (open_edges_at room.n room.nf) k }
    requires n_bound { (room.n < 2097152) × (k ≤ 3 * room.nf) × (room_end room.n room.nf ≤ length w.old) }
    ensures { Constrained clip.extents clip.eps room.n room.nf k result w.old w.new }
{
    let edged = EdgedRoom { room, k };
    let mut total = 0;
    for face in BOX_FACES {
        total = face_constraints(w, edged, face, clip, total);
    }
    total
}
