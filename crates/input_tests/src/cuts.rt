// A grid that has passed test 6, and the G of test 7.
ghost use Rattle.std.specs.Prelude.{◌≡◌, ◌≤◌};
ghost use Rattle.geometry.specs.Boxes.{axis_of};
ghost use Rattle.geometry.specs.Axes.{segments, grid_size};
ghost use Rattle.input_tests.specs.Front.{by_axis, CutsOf};

use crate::grid::Grid;
use geometry::face::Axis;

// A grid that is not too fine, with the number of segments of each axis.
#[derive(Clone, Copy)]
pub struct Cuts {
    pub grid: Grid,
    pub segments: [usize; 3],
    pub ghost cut: { CutsOf grid.extents grid.eps (by_axis grid.resolution) segments },
}

impl Cuts {
    pub fn along(self, axis: Axis) -> usize
        ensures value { result ≡ segments self.grid.extents self.grid.eps (by_axis self.grid.resolution) (axis_of axis) }
        ensures bound { result ≤ 256 }
    {
        self.segments[axis.index()]
    }

    // G
    #[tactic(auto, using(crate::proofs::Grids::size_is, crate::proofs::Grids::small_product))]
    pub fn size(self) -> usize
        ensures { result ≡ grid_size self.grid.extents self.grid.eps (by_axis self.grid.resolution) }
    {
        let x = self.along(Axis::X) + 1;
        let y = self.along(Axis::Y) + 1;
        let z = self.along(Axis::Z) + 1;
        2 * (x * y + x * z + y * z)
    }
}
