// What is asked of candidates and of caps beside the mesh: the box, how near to a face is on it, and how far apart grid points stand.
ghost use Rattle.std.specs.Prelude.{◌≡◌, false};
ghost use Rattle.input_tests.specs.Front.{grid_too_fine};
ghost use Rattle.candidate_surface.specs.Asked.{one_resolution, clip_of, grid_of};

use aabb_planes::clip::Clip;
use geometry::aabb::AABB;
use input_tests::cuts::Cuts;
use input_tests::grid::Grid;

#[derive(Clone, Copy)]
pub struct Asked {
    pub extents: AABB,
    pub eps: f64,
    pub resolution: f64,
}

impl Asked {
    // The box, and how near to a face is on it.
    pub fn clip(self) -> Clip
        ensures { result ≡ clip_of self }
    {
        Clip {
            extents: self.extents,
            eps: self.eps,
        }
    }

    // The one resolution is that of each axis.
    pub fn grid(self) -> Grid
        ensures { result ≡ grid_of self }
    {
        Grid {
            extents: self.extents,
            eps: self.eps,
            resolution: [self.resolution; 3],
        }
    }

    // The cut grid, once test 6 has passed.
    pub fn cuts(self) -> Cuts
        requires { grid_too_fine self.extents self.eps (one_resolution self.resolution) ≡ false }
        ensures { result.grid ≡ grid_of self }
    {
        self.grid().cut().unwrap()
    }
}
