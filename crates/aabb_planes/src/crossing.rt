// aabb_clipping.rs: where a side of a polygon crosses a plane.
ghost use Rattle.std.specs.Prelude.{◌≡◌};
ghost use Rattle.geometry.specs.Points.{along};
ghost use Rattle.geometry.specs.Boxes.{axis, face_of, plane};
ghost use Rattle.aabb_planes.specs.Planes.{crossing, interpolated};

use crate::clip::Clip;
use geometry::face::BoxFace;
use geometry::point::Point;
use rounding::within;

impl Clip {
    // `segment_plane_t`
    pub fn segment_plane_t(self, a: Point, b: Point, at: BoxFace) -> Option<f64>
        ensures { result ≡ crossing self.eps (plane self.extents (face_of at)) (along a (axis (face_of at))) (along b (axis (face_of at))) }
    {
        let coord = at.place(self.extents);
        let axis = at.axis();
        let start = a.along(axis);
        let end = b.along(axis);
        let da = start - coord;
        let db = end - coord;
        if within(da, self.eps) {
            return Some(0.0);
        }
        if within(db, self.eps) {
            return Some(1.0);
        }
        if (da < 0.0) == (db < 0.0) {
            return None;
        }
        Some((coord - start) / (end - start))
    }
}

// `interpolate_points`
pub fn interpolate_points(a: Point, b: Point, t: f64) -> Point
    ensures { result ≡ interpolated a b t }
{
    Point {
        x: a.x + t * (b.x - a.x),
        y: a.y + t * (b.y - a.y),
        z: a.z + t * (b.z - a.z),
    }
}
