ghost use Rattle.refusals.specs.Reports.{Reported};
ghost use Rattle.yongpham.specs.Calls.{box_of};
ghost use Rattle.tolerance.specs.Tolerance.{tolerance_reply};

use crate::boxes::box_of;
use refusals::report::{report_done, report_refusal};
use tolerance::bbox_eps;

// `bbox_eps` of the box with these two corners: values[0] gets the bits of the tolerance.
// Stays (C interface), point 5: the parameters are those of include/yongpham.h; replay calls this crate, since no crate can use a static library (yongpham_c).
pub fn yongpham_tolerance(
    min_x: f64,
    min_y: f64,
    min_z: f64,
    max_x: f64,
    max_y: f64,
    max_z: f64,
    values: &mut [u64; 4],
) -> u32
    ensures { Reported (tolerance_reply (box_of min_x min_y min_z max_x max_y max_z)) result values.new }
{
    let extents = box_of(min_x, min_y, min_z, max_x, max_y, max_z);
    match bbox_eps(extents) {
        Ok(eps) => report_done(values, f64::to_bits(eps), 0, 0, 0),
        Err(refusal) => report_refusal(values, refusal),
    }
}
