// geometry/point.rs: the operations on points that clipping, cleaning and closing use, each rounded, with the Rust's operand order.
// Left out, since no operation uses them: add, mul, scale, unit, distance2, distance, close_to, lerp.
ghost use Rattle.std.specs.Prelude.{◌≡◌, T};
ghost use Rattle.root.specs.Root.{rootable};
ghost use Rattle.geometry.specs.Points.{along, difference, dot, cross, norm2, norm};
ghost use Rattle.geometry.specs.Boxes.{axis_of};

use crate::face::Axis;
use root::sqrt;

#[derive(Clone, Copy)]
pub struct Point {
    pub x: f64,
    pub y: f64,
    pub z: f64,
}

impl Point {
    // The coordinate on an axis.
    #[tactic(auto, unfolding(crate::specs::Points::along))]
    #[inline(always)]
    pub fn along(self, axis: Axis) -> f64
        ensures { result ≡ along self (axis_of axis) }
    {
        match axis {
            Axis::X => self.x,
            Axis::Y => self.y,
            Axis::Z => self.z,
        }
    }

    #[tactic(auto, unfolding(crate::specs::Points::difference))]
    pub fn sub(self, other: Point) -> Point
        ensures { result ≡ difference self other }
    {
        Point {
            x: self.x - other.x,
            y: self.y - other.y,
            z: self.z - other.z,
        }
    }

    #[tactic(auto, unfolding(crate::specs::Points::dot))]
    pub fn dot(self, other: Point) -> f64
        ensures { result ≡ dot self other }
    {
        self.x * other.x + self.y * other.y + self.z * other.z
    }

    #[tactic(auto, unfolding(crate::specs::Points::cross))]
    pub fn cross(self, other: Point) -> Point
        ensures { result ≡ cross self other }
    {
        Point {
            x: self.y * other.z - self.z * other.y,
            y: self.z * other.x - self.x * other.z,
            z: self.x * other.y - self.y * other.x,
        }
    }

    pub fn norm2(self) -> f64
        ensures { result ≡ norm2 self }
    {
        self.dot(self)
    }

    // the root is drawn only from a sum that is finite
    pub fn norm(self) -> f64
        requires { T (rootable (norm2 self)) }
        ensures { result ≡ norm self }
    {
        sqrt(self.norm2())
    }
}
