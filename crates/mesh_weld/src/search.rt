// The search of the 27 cells around a point, by the chains of their buckets (`push_dedup_point` of mesh_cleanup.rs). The room of n vertices stands in the work room from 0 on:
// 4 n heads, 4 n tails and n nexts (crate chains), the kept vertices from 9 n on, the new numbers from 10 n on, and the cells of the kept from 11 n on, three words each.
// Stays (C interface), point 6: they are places in the lent room, and links are words in it, since C lends one buffer and there is no heap.
ghost use Rattle.std.specs.Prelude.{◌≡◌, ◌&&◌, [], ◌∷◌, ◌+◌, ◌*◌, ◌<◌, get_or};
ghost use Rattle.geometry.specs.Meshes.{vertex_of};
ghost use Rattle.mesh_weld.specs.Joining.{Joining};
ghost use Rattle.mesh_weld.specs.Cells.{key_of, near, cells};
ghost use Rattle.mesh_weld.specs.Room.{cell_at, same_cell, words_of, kept_points, found_in, HashOf, Index, KeyIn, KeysIn};

use crate::cells::{Cell, cell_at, is_near};
use chains::{Chains, Hashed, mix};
use geometry::point::Point;
use geometry::vertices::{vertex_at, vertex_in};

// The first `count` kept of the n vertices, as they stand in the room.
#[derive(Clone, Copy)]
pub struct Kept<'a> {
    pub room: &'a [u64],
    pub vertices: &'a [f64],
    pub n: usize,
    pub count: usize,
    pub eps: f64,
    pub ghost some: { 0 < n },
    pub ghost index: { Index vertices.now eps n count room.now },
    pub ghost keys_in: { KeysIn vertices.now eps n },
}

impl Kept<'_> {
    // Whether the kept vertex at k is in the cell c and near p.
    fn holds(&self, k: usize, c: Cell, p: Point) -> bool
        requires { k < self.now.count }
        ensures { result ≡ (same_cell (cell_at self.now.room.now (11 * self.now.n + 3 * k)) c
            && near self.now.eps p (vertex_of self.now.vertices.now (get_or self.now.room.now (9 * self.now.n + k) 0))) }
    {
        let v = vertex_in(self.room, 9 * self.n + k);
        let q = vertex_at(self.vertices, v);
        cell_at(self.room, 11 * self.n + 3 * k) == c && is_near(p, q, self.eps)
    }

    // The first kept vertex in the cell c and near p, by the chain of the cell's bucket.
    fn search_cell(&self, s: u64, c: Cell, p: Point) -> Option<usize>
        requires { HashOf c s }
        ensures { result ≡ found_in self.now.vertices.now self.now.eps self.now.n self.now.count self.now.room.now p (c ∷ []) }
    {
        let table = Hashed {
            chains: Chains {
                at: 0,
                nb: 4 * self.n,
            },
        };
        let b = table.bucket_at(s);
        let mut here = table.chains.first(self.room, b);
        // Stays (plainer): each item of a chain is found from the one before; a `for` would need an iterator type of its own for this walk.
        while let Some(i) = here {
            if self.holds(i, c, p) {
                return Some(i);
            }
            here = table.chains.next(self.room, i);
        }
        None
    }

    // The kept vertex that the vertex p in the cell c is taken for: the first in the 27 cells around c, "dx, dy, dz from -1 to 1 in that nesting".
    pub fn search(&self, c: Cell, p: Point) -> Option<usize>
        requires key_in { KeyIn self.now.eps p }
        requires cell_of { c ≡ words_of (key_of self.now.eps p) }
        ensures { result ≡ (cells self.now.eps).find p (kept_points self.now.vertices.now self.now.n self.now.count self.now.room.now) }
    {
        let corner = Cell {
            x: c.x - 1,
            y: c.y - 1,
            z: c.z - 1,
        };
        let s = mix(corner.x, corner.y, corner.z);
        for x in 0..3 {
            for y in 0..3 {
                for z in 0..3 {
                    let cell = Cell {
                        x: corner.x + x,
                        y: corner.y + y,
                        z: corner.z + z,
                    };
                    let hash = s + x * 561705629 + y * 816622479 + z * 167066315;
                    if let Some(k) = self.search_cell(hash, cell, p) {
                        return Some(k);
                    }
                }
            }
        }
        None
    }
}
