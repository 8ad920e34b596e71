// Stays (C interface), point 6: records and pairs stand at places of the one room that C lends, and there is no heap.
// boundary_closure.rs, `add_face_box_boundary_constraints`: neighbours along the sides of a face. `dedup_by_key` and `a != b` are left out: a candidate stands once in a
// face's list, so it stands once on a side.
ghost use Rattle.std.specs.Prelude.{◌≡◌, map, not, T, ◌+◌, ◌*◌, ◌≤◌, ◌<◌, length};
ghost use Rattle.std.specs.Float.Ieee.{is_nan};
ghost use Rattle.geometry.specs.Boxes.{face_of};
ghost use Rattle.rounding.specs.Ordering.{order_key};
ghost use Rattle.records.specs.Buffer.{put_record, records_at};
ghost use Rattle.candidate_pool.specs.Offsets.{side_at, pairs_at};
ghost use Rattle.candidate_pool.specs.Standing.{pool_at};
ghost use Rattle.candidate_constraints.specs.Constraints.{consecutive};
ghost use Rattle.candidate_constraints.specs.Steps.{Shown, side_places, side_pairs, LowPlaces, Collected, Pushed};

use crate::pairs::put_pair;
use crate::places::candidate_of_place;
use aabb_planes::clip::Clip;
use box_faces::faces::project;
use box_faces::sides::{candidate_on_face_side, face_boundary_sides};
use box_faces::uv::Side;
use candidate_pool::pool::point_of;
use candidate_pool::room::Room;
use geometry::face::BoxFace;
use geometry::numbers::FacePlace;
use rounding::order_key;
use sorting::sort_records;

// Stores the record of a place and its fraction.
fn note_fraction(w: &mut [u64], at: usize, t: f64, place: FacePlace)
    requires { (at + 1 < length w.old) × T (not (is_nan t)) }
    ensures { w.new ≡ put_record w.old at (order_key t, place.0) }
{
    w[at] = order_key(t);
    w[at + 1] = place.0 as u64;
}

// The records of a face's candidates along a side, in the order of its list; how many they are.
fn collect_side(w: &mut [u64], room: Room, face: BoxFace, side: Side, eps: f64) -> usize
    requires shown { Shown room.n w.old }
    requires fits { pairs_at room.n ≤ length w.old }
    ensures { Collected eps room.n (face_of face) side result w.old w.new }
{
    let list = room.list_at(face);
    let at = room.side_at();
    let count = w[face.index()] as usize;
    let mut m = 0;
    for i in 0..count {
        let p = project(face, point_of(w, candidate_of_place(w, list, FacePlace(i))));
        if let Some(t) = candidate_on_face_side(side, p, eps) {
            note_fraction(w, at + 2 * m, t, FacePlace(i));
            m += 1;
        }
    }
    m
}

// The neighbours among m sorted records, behind `count` pairs.
fn push_neighbours(w: &mut [u64], room: Room, face: BoxFace, m: usize, count: usize) -> usize
    requires bounds { (pairs_at room.n + 2 * (count + m) ≤ length w.old) × (m ≤ room.n) × (count < 1073741824) }
    requires low_places { LowPlaces room.n m w.old }
    ensures { Pushed room.n (face_of face) (pairs_at room.n + 2 * count) m (consecutive (map (λ x. x.1) (records_at w.old (side_at room.n) m))) count result w.old w.new }
{
    let at = room.side_at();
    let pairs = room.pairs_at();
    let mut c = count;
    for j in 0..m.saturating_sub(1) {
        let a = w[at + 2 * j + 1] as usize;
        let b = w[at + 2 * j + 3] as usize;
        put_pair(w, pairs + 2 * c, face, FacePlace(a), FacePlace(b));
        c += 1;
    }
    c
}

// Stays (plainer): that places have 21 bits is asked where records are sorted and paired, and is no part of what the room is elsewhere.
// By t, then by place: stable, since places ascend.
fn push_side(w: &mut [u64], room: Room, face: BoxFace, side: Side, eps: f64, count: usize) -> usize
    requires shown { Shown room.n w.old }
    requires n_bound { (room.n < 2097152) × (count ≤ 3 * room.n) × (pairs_at room.n + 16 * room.n ≤ length w.old) }
    ensures { Pushed room.n (face_of face) (side_at room.n) room.n (consecutive (side_places eps (pool_at room.n w.old) (face_of face) side)) count result w.old w.new }
{
    let m = collect_side(w, room, face, side, eps);
    let at = room.side_at();
    sort_records(&mut w[at..at + 4 * m], m);
    push_neighbours(w, room, face, m, count)
}

// The neighbours along all four sides; how many pairs they are.
pub fn push_sides(w: &mut [u64], room: Room, face: BoxFace, clip: Clip) -> usize
    requires shown { Shown room.n w.old }
    requires n_bound { (room.n < 2097152) × (pairs_at room.n + 16 * room.n ≤ length w.old) }
    ensures { Pushed room.n (face_of face) (side_at room.n) (4 * room.n) (side_pairs clip.extents clip.eps (pool_at room.n w.old) (face_of face)) 0 result w.old w.new }
{
    let mut c = 0;
    for side in face_boundary_sides(face, clip.extents) {
        c = push_side(w, room, face, side, clip.eps, c);
    }
    c
}
