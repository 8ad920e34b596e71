// aabb_clipping.rs: which points lie inside the planes of a box, and the snapping of those near one.
ghost use Rattle.std.specs.Prelude.{◌≡◌};
ghost use Rattle.lists.specs.Lists.{every};
ghost use Rattle.geometry.specs.Boxes.{face_of, faces};
ghost use Rattle.aabb_planes.specs.Planes.{inside, on_plane, snap_to, snapped};

use geometry::aabb::AABB;
use geometry::face::{Axis, BOX_FACES, BoxFace};
use geometry::point::Point;
use rounding::within;

// The box to clip to, and how near to a plane is on it.
#[derive(Clone, Copy)]
pub struct Clip {
    pub extents: AABB,
    pub eps: f64,
}

impl Clip {
    // `point_inside_plane`
    #[tactic(auto, unfolding(crate::specs::Planes::inside))]
    pub fn point_inside_plane(self, p: Point, plane: BoxFace) -> bool
        ensures { result ≡ inside self.extents self.eps (face_of plane) p }
    {
        let at = plane.place(self.extents);
        let v = p.along(plane.axis());
        if plane.is_min() {
            v >= at - self.eps
        } else {
            v <= at + self.eps
        }
    }

    // `point_inside_aabb`
    pub fn point_inside_aabb(self, p: Point) -> bool
        ensures { result ≡ every (λ f. inside self.extents self.eps f p) faces }
    {
        BOX_FACES
            .iter()
            .all(|plane| self.point_inside_plane(p, *plane))
    }

    // `snap_to_plane`
    #[tactic(auto, unfolding(crate::specs::Planes::on_plane, geometry::specs::Points::along))]
    pub fn snap_to_plane(self, p: Point, plane: BoxFace) -> Point
        ensures { result ≡ on_plane self.extents (face_of plane) p }
    {
        let at = plane.place(self.extents);
        match plane.axis() {
            Axis::X => Point { x: at, ..p },
            Axis::Y => Point { y: at, ..p },
            Axis::Z => Point { z: at, ..p },
        }
    }

    fn snap_to(self, v: f64, at: f64) -> f64
        ensures { result ≡ snap_to self.eps at v }
    {
        if within(v - at, self.eps) { at } else { v }
    }

    // Min before max: the Rust tests the two one after the other.
    fn snap_axis(self, v: f64, low: f64, high: f64) -> f64
        ensures { result ≡ snap_to self.eps high (snap_to self.eps low v) }
    {
        self.snap_to(self.snap_to(v, low), high)
    }

    // `snap_near_bbox`: a coordinate within eps of a side of the box goes exactly onto it.
    pub fn snap_near_bbox(self, p: Point) -> Point
        ensures { result ≡ snapped self.extents self.eps p }
    {
        let low = self.extents.min_corner;
        let high = self.extents.max_corner;
        Point {
            x: self.snap_axis(p.x, low[0], high[0]),
            y: self.snap_axis(p.y, low[1], high[1]),
            z: self.snap_axis(p.z, low[2], high[2]),
        }
    }
}
