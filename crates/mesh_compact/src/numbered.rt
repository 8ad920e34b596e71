// What renumbering counts.
ghost use Rattle.std.specs.Prelude.{◌≡◌, ◌≤◌};

// How many vertices and how many corners have been numbered. A vertex is numbered at a corner.
#[derive(Clone, Copy)]
pub struct Numbered {
    pub vertices: usize,
    pub corners: usize,
    pub ghost few: { vertices ≤ corners },
}

impl Numbered {
    pub fn none() -> Numbered
        ensures { (result.vertices ≡ 0) × (result.corners ≡ 0) }
    {
        Numbered {
            vertices: 0,
            corners: 0,
        }
    }
}
