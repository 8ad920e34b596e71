// A box from the six numbers that C hands in.
ghost use Rattle.std.specs.Prelude.{◌≡◌};
ghost use Rattle.yongpham.specs.Calls.{box_of};

use geometry::aabb::AABB;

// Stays (C interface), point 5: the six numbers are those of include/yongpham.h.
pub fn box_of(min_x: f64, min_y: f64, min_z: f64, max_x: f64, max_y: f64, max_z: f64) -> AABB
    ensures { result ≡ box_of min_x min_y min_z max_x max_y max_z }
{
    AABB {
        min_corner: [min_x, min_y, min_z],
        max_corner: [max_x, max_y, max_z],
    }
}
