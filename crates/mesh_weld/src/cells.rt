// The cell of a point, each key as a word; and the distance test.
// Stays (C interface), point 6: cells are read at places in the lent room, since C lends one buffer and there is no heap.
ghost use Rattle.std.specs.Prelude.{◌≡◌, ◌+◌, ◌<◌, length};
ghost use Rattle.mesh_weld.specs.Cells.{key_of, near};
ghost use Rattle.mesh_weld.specs.Room.{cell_at, words_of};

use geometry::point::Point;
use rounding::{key_word, quantized_key};

// The three keys of a point, each as a word.
#[derive(Clone, Copy, PartialEq, Eq)]
pub struct Cell {
    pub x: u64,
    pub y: u64,
    pub z: u64,
}

// `quantized_point_key`
pub fn cell_of(p: Point, eps: f64) -> Cell
    ensures { result ≡ words_of (key_of eps p) }
{
    Cell {
        x: key_word(quantized_key(p.x, eps)),
        y: key_word(quantized_key(p.y, eps)),
        z: key_word(quantized_key(p.z, eps)),
    }
}

// The cell whose words stand in the room from `at` on.
pub fn cell_at(room: &[u64], at: usize) -> Cell
    requires { at + 2 < length room.now }
    ensures { result ≡ cell_at room.now at }
{
    Cell {
        x: room[at],
        y: room[at + 1],
        z: room[at + 2],
    }
}

pub fn is_near(p: Point, q: Point, eps: f64) -> bool
    ensures { result ≡ near eps p q }
{
    p.sub(q).norm2() <= eps * eps
}
