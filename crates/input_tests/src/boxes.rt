// Tests 4 and 5 of the box.
ghost use Rattle.std.specs.Prelude.{◌≡◌};
ghost use Rattle.input_tests.specs.Front.{box_in_range, bad_box};

use crate::in_range;
use geometry::aabb::AABB;

// 4, of both corners
#[tactic(auto, unfolding(crate::specs::Front::box_in_range))]
pub fn box_in_range(extents: AABB) -> bool
    ensures { result ≡ box_in_range extents }
{
    let AABB {
        min_corner,
        max_corner,
    } = extents;
    min_corner
        .iter()
        .zip(&max_corner)
        .all(|(low, high)| in_range(*low) && in_range(*high))
}

// 5
#[tactic(auto, unfolding(crate::specs::Front::bad_box))]
pub fn is_bad_box(extents: AABB) -> bool
    ensures { result ≡ bad_box extents }
{
    let AABB {
        min_corner,
        max_corner,
    } = extents;
    min_corner
        .iter()
        .zip(&max_corner)
        .any(|(low, high)| !(*low < *high))
}
