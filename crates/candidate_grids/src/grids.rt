// boundary_closure.rs, `add_face_grid_points`: "the face grids, u outside v". `grid_to_candidate` is left out: the same point has the same key.
// Stays (C interface), point 6: open edges and segments stand at places of the lent room, since C lends one buffer and there is no heap; `last` counts a row's segments.
ghost use Rattle.std.specs.Prelude.{◌≡◌, ◌&&◌, ◌+◌, ◌*◌, ◌<◌, ◌≤◌, length};
ghost use Rattle.geometry.specs.Boxes.{axis, axis_of, face_of};
ghost use Rattle.box_faces.specs.Faces.{v_axis};
ghost use Rattle.candidate_grids.specs.Steps.{
  GridReady,
  Gridded,
  SegmentIn,
  SegmentAt,
  start_at,
  end_at,
  double,
  hit_at,
  skips_near,
  SegmentPut,
  EdgeReady,
  SegmentGathered,
  EdgesReady,
  Gathered,
  NearReady,
  is_inner,
  grid_cell,
  row_cells,
  parts_of,
  line_of,
  face_line,
  PointReady,
  PointsEntered,
  RowReady,
  FaceReady,
  FaceEntered,
};

use box_faces::faces::{FaceMask, project, uv_axes};
use box_faces::lines::{axis_grid_coordinate, point_on_face};
use box_faces::segments::{point_on_segment2, segment_bound};
use box_faces::uv::{Side, Uv};
use candidate_pool::pool::{insert_grid_point, point_of};
use candidate_pool::room::Room;
use geometry::face::{Axis, BOX_FACES, BoxFace};
use geometry::numbers::CandidateVertexId;
use geometry::point::Point;
use input_tests::cuts::Cuts;

// The open edges of the face worked on, as `count` segments from `at` on, and how near to one a point lies on it.
#[derive(Clone, Copy)]
pub struct Near {
    pub at: usize,
    pub count: usize,
    pub tolerance: f64,
}

// A row of a face's grid: its place on the face's own axis and on u, and whether it is neither the first nor the last.
#[derive(Clone, Copy)]
pub struct Row {
    pub at: f64,
    pub u: f64,
    pub inner: bool,
}

// An open edge in a face's plane, and the bound that its length gives (`segment_bound`).
#[derive(Clone, Copy)]
struct Segment {
    side: Side,
    bound: f64,
}

impl Segment {
    // As five words from `at` on.
    fn write(self, w: &mut [u64], at: usize)
        requires { (at + 5 ≤ length w.old) × SegmentIn self.side.start self.side.end self.bound }
        ensures { SegmentPut at self.side.start self.side.end self.bound w.old w.new }
    {
        w[at] = f64::to_bits(self.side.start.u);
        w[at + 1] = f64::to_bits(self.side.start.v);
        w[at + 2] = f64::to_bits(self.side.end.u);
        w[at + 3] = f64::to_bits(self.side.end.v);
        w[at + 4] = f64::to_bits(self.bound);
    }

    // Stays (plainer), point 5: that a segment's five words stand in the room is a fact of a place, which is read once in each of the three.
    fn read(w: &[u64], at: usize) -> Segment
        requires { (at + 5 ≤ length w.now) × SegmentAt w.now at }
        ensures { (result.side.start ≡ start_at w.now at) × (result.side.end ≡ end_at w.now at) × (result.bound ≡ double w.now (at + 4)) }
    {
        Segment {
            side: Side {
                start: Uv {
                    u: f64::from_bits(w[at]),
                    v: f64::from_bits(w[at + 1]),
                },
                end: Uv {
                    u: f64::from_bits(w[at + 2]),
                    v: f64::from_bits(w[at + 3]),
                },
            },
            bound: f64::from_bits(w[at + 4]),
        }
    }
}

// Stores the open edge at `edge`, projected to the face, with its bound.
fn gather_segment(w: &mut [u64], at: usize, edge: usize, face: BoxFace, tolerance: f64)
    requires { EdgeReady at edge tolerance w.old }
    ensures { SegmentGathered at edge (face_of face) tolerance w.old w.new }
{
    let a = project(face, point_of(w, CandidateVertexId(w[edge] as usize)));
    let b = project(face, point_of(w, CandidateVertexId(w[edge + 1] as usize)));
    let bound = segment_bound(tolerance, a, b);
    let segment = Segment {
        side: Side { start: a, end: b },
        bound,
    };
    segment.write(w, at);
}

// The open edges of a face; how many they are.
fn gather_segments(w: &mut [u64], room: Room, k: usize, face: BoxFace, tolerance: f64) -> usize
    requires { EdgesReady room.n room.nf k (face_of face) tolerance w.old }
    ensures { Gathered room.n room.nf k (face_of face) tolerance w.old w.new result }
{
    let edges = room.open_edges_at();
    let segments = room.segments_at();
    let mut count = 0;
    for i in 0..k {
        if FaceMask(w[edges + 3 * i + 2]).contains(face) {
            gather_segment(w, segments + 5 * count, edges + 3 * i, face, tolerance);
            count += 1;
        }
    }
    count
}

fn is_on_segment(w: &[u64], at: usize, p: Uv, tolerance: f64) -> bool
    requires { (at + 5 ≤ length w.now) × SegmentAt w.now at }
    ensures { result ≡ hit_at w.now at tolerance p }
{
    let s = Segment::read(w, at);
    point_on_segment2(p, s.side.start, s.side.end, s.bound, tolerance)
}

// "lies on an open edge there"
fn is_skipped(w: &[u64], room: Room, near: Near, p: Uv) -> bool
    requires { NearReady room.n near w.now }
    ensures { result ≡ skips_near w.now near p }
{
    (0..near.count).any(|i| is_on_segment(w, near.at + 5 * i, p, near.tolerance))
}

// The i-th line across an axis.
fn grid_line(cuts: Cuts, axis: Axis, i: usize) -> f64
    requires { i ≤ 256 }
    ensures { result ≡ line_of cuts (axis_of axis) i }
{
    let k = axis.index();
    let extents = cuts.grid.extents;
    axis_grid_coordinate(
        extents.min_corner[k],
        extents.max_corner[k],
        cuts.along(axis),
        i,
    )
}

// The first or the last line of the face's own axis.
fn face_line(cuts: Cuts, face: BoxFace) -> f64
    ensures { result ≡ face_line cuts.grid.extents (face_of face) (parts_of cuts (axis (face_of face))) }
{
    let axis = face.axis();
    let last = cuts.along(axis);
    if face.is_min() {
        grid_line(cuts, axis, 0)
    } else {
        grid_line(cuts, axis, last)
    }
}

fn is_interior(i: usize, last: usize) -> bool
    ensures { result ≡ is_inner i last }
{
    i != 0 && i != last
}

// One grid point, unless it is interior by index and lies on an open edge of the face.
// Stays (plainer): whether the point is interior is a fact of its indices, which the row and the place in it say together, and no step to choose.
fn enter_grid_point(
    w: &mut [u64],
    room: Room,
    near: Near,
    face: BoxFace,
    p: Point,
    inner: bool,
    eps: f64,
)
    requires { PointReady eps room.n near p w.old }
    ensures { PointsEntered eps room.n (grid_cell (skips_near w.old near) inner (face_of face) p) 1 w.old w.new }
{
    if inner && is_skipped(w, room, near, project(face, p)) {
        return;
    }
    insert_grid_point(w, room, p, face, eps);
}

// The grid points of a row, along v.
fn enter_grid_row(w: &mut [u64], room: Room, near: Near, face: BoxFace, row: Row, cuts: Cuts)
    requires { RowReady cuts.grid.eps room.n near row cuts.grid.extents (parts_of cuts (v_axis (face_of face))) w.old }
    ensures { PointsEntered cuts.grid.eps room.n (row_cells (skips_near w.old near) cuts (face_of face) row) (parts_of cuts (v_axis (face_of face)) + 1) w.old w.new }
{
    let axis = uv_axes(face).1;
    let last = cuts.along(axis);
    for j in 0..=last {
        let v = grid_line(cuts, axis, j);
        let p = point_on_face(face, row.at, row.u, v);
        let inner = row.inner && is_interior(j, last);
        enter_grid_point(w, room, near, face, p, inner, cuts.grid.eps);
    }
}

// The number of the axis that a face is across.
fn across(face: BoxFace) -> usize
    ensures value { result ≡ axis (face_of face) }
    ensures bound { result < 3 }
{
    face.axis().index()
}

// A face's rows, along u. The skip tolerance goes by the axis that the face is across.
fn enter_face_grid(w: &mut [u64], room: Room, k: usize, face: BoxFace, cuts: Cuts, skip: [f64; 3])
    requires { FaceReady cuts.grid.extents cuts.grid.eps cuts.grid.resolution skip room.n room.nf k (face_of face) w.old }
    ensures { FaceEntered cuts.grid.extents cuts.grid.eps cuts.grid.resolution skip room.n room.nf k (face_of face) w.old w.new }
{
    let axes = uv_axes(face);
    let last = cuts.along(axes.0);
    let at = face_line(cuts, face);
    let tolerance = skip[across(face)];
    let count = gather_segments(w, room, k, face, tolerance);
    let near = Near {
        at: room.segments_at(),
        count,
        tolerance,
    };
    for i in 0..=last {
        let row = Row {
            at,
            u: grid_line(cuts, axes.0, i),
            inner: is_interior(i, last),
        };
        enter_grid_row(w, room, near, face, row, cuts);
    }
}

pub fn enter_grids(w: &mut [u64], room: Room, k: usize, cuts: Cuts, skip: [f64; 3])
    requires { GridReady cuts.grid.extents cuts.grid.eps cuts.grid.resolution skip room.n room.nf k w.old }
    ensures { Gridded cuts.grid.extents cuts.grid.eps cuts.grid.resolution skip room.n room.nf k w.old w.new }
{
    for face in BOX_FACES {
        enter_face_grid(w, room, k, face, cuts, skip);
    }
}
