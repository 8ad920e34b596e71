// boundary_closure.rs, `axis_grid_coordinates` and `grid_ijk`: one line and one point of a grid at a time.
ghost use Rattle.std.specs.Prelude.{◌≡◌, ◌≤◌};
ghost use Rattle.geometry.specs.Boxes.{face_of};
ghost use Rattle.box_faces.specs.Lines.{line_at, point_on_face};

use geometry::face::{Axis, BoxFace};
use geometry::point::Point;

// The last line is the end itself.
// Stays (plainer), point 5: a type for at most 256 parts would be made where an axis is cut and opened again in the one line that divides by their number.
#[tactic(auto, using(rounding::proofs::Rounding::can_cast), unfolding(crate::specs::Lines::line_at))]
pub fn axis_grid_coordinate(low: f64, high: f64, parts: usize, i: usize) -> f64
    requires { (i ≤ 256) × (parts ≤ 256) }
    ensures { result ≡ line_at low high parts i }
{
    if i == parts {
        high
    } else {
        low + (high - low) * (i as f64 / parts as f64)
    }
}

#[tactic(auto, unfolding(crate::specs::Lines::point_on_face))]
pub fn point_on_face(face: BoxFace, at: f64, u: f64, v: f64) -> Point
    ensures { result ≡ point_on_face (face_of face) at u v }
{
    match face.axis() {
        Axis::X => Point { x: at, y: u, z: v },
        Axis::Y => Point { x: u, y: at, z: v },
        Axis::Z => Point { x: u, y: v, z: at },
    }
}
