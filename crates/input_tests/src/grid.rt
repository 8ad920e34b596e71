// Tests 6 and 8. The resolution is one for each axis here; the operations of document 01 give all three the same.
ghost use Rattle.std.specs.Prelude.{◌≡◌, ◌||◌};
ghost use Rattle.geometry.specs.Boxes.{axis_of};
ghost use Rattle.geometry.specs.Axes.{segments};
ghost use Rattle.rounding.specs.Rounding.{far_key, at_most_256};
ghost use Rattle.input_tests.specs.Front.{by_axis, far_keys, box_far_keys};
ghost use Rattle.input_tests.specs.Cutting.{IsCut};

use crate::cuts::Cuts;
use geometry::aabb::AABB;
use geometry::face::Axis;
use rounding::{axis_segments, key_beyond, max, quantized_key};

// The grid of the box, with a resolution for each axis.
#[derive(Clone, Copy)]
pub struct Grid {
    pub extents: AABB,
    pub eps: f64,
    pub resolution: [f64; 3],
}

impl Grid {
    // The segments of an axis, and none where it needs more than 256, whatever the other axes need.
    #[tactic(auto, unfolding(geometry::specs::Axes::segments, rounding::specs::Rounding::few_segments))]
    pub fn axis_cut(self, axis: Axis) -> Option<usize>
        ensures { result ≡ at_most_256 (segments self.extents self.eps (by_axis self.resolution) (axis_of axis)) }
    {
        let k = axis.index();
        let length = self.extents.max_corner[k] - self.extents.min_corner[k];
        let count = axis_segments(length, max(self.resolution[k], self.eps))?;
        Some(count as usize)
    }

    // 6: none where an axis needs more than 256 segments
    pub fn cut(self) -> Option<Cuts>
        ensures { IsCut self result }
    {
        let x = self.axis_cut(Axis::X)?;
        let y = self.axis_cut(Axis::Y)?;
        let z = self.axis_cut(Axis::Z)?;
        Some(Cuts {
            grid: self,
            segments: [x, y, z],
        })
    }
}

fn is_far(x: f64, eps: f64) -> bool
    ensures { result ≡ far_key eps x }
{
    key_beyond(quantized_key(x, eps))
}

// 8, of a list of coordinates
#[tactic(auto, unfolding(crate::specs::Front::far_keys))]
pub fn has_far_key(coordinates: &[f64], eps: f64) -> bool
    ensures { result ≡ far_keys eps coordinates.now }
{
    coordinates.iter().any(|x| is_far(*x, eps))
}

// 8, of both corners of the box
pub fn box_has_far_key(extents: AABB, eps: f64) -> bool
    ensures { result ≡ box_far_keys eps extents }
{
    has_far_key(&extents.min_corner, eps) || has_far_key(&extents.max_corner, eps)
}
