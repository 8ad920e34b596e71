// The tolerance of a box (document 01, module 2; `bbox_eps` of aabb_clipping.rs).
#![tactic(auto)]

ghost use Rattle.std.specs.Prelude.{◌≡◌};
ghost use Rattle.tolerance.specs.Tolerance.{box_lengths, Tolerated};

use geometry::aabb::AABB;
use geometry::point::Point;
use input_tests::boxes::{box_in_range, is_bad_box};
use refusals::refusal::Refusal;
use rounding::max;

fn sides(extents: AABB) -> Point
    ensures { result ≡ box_lengths extents }
{
    Point {
        x: extents.max_corner[0] - extents.min_corner[0],
        y: extents.max_corner[1] - extents.min_corner[1],
        z: extents.max_corner[2] - extents.min_corner[2],
    }
}

// "1e-10 times the larger of 1 and the root of the summed squares of the sides", after tests 4 and 5
pub fn bbox_eps(extents: AABB) -> Result<f64, Refusal>
    ensures { Tolerated extents result }
{
    if !box_in_range(extents) {
        return Err(Refusal::BadNumber);
    }
    if is_bad_box(extents) {
        return Err(Refusal::BadBox);
    }
    let diag = sides(extents).norm();
    Ok(1.0e-10 * max(diag, 1.0))
}
