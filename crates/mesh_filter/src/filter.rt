// The filter, facet by facet (the second loop of `clean_mesh` in mesh_cleanup.rs). specs/Room.antt says what stands where in m, from `at` on.
// Stays (C interface), point 6: chains, keys, numbers and corners are places in the lent room, since C lends one buffer and there is no heap.
ghost use Rattle.std.specs.Prelude.{◌≡◌, ◌+◌, ◌*◌, ◌≤◌, ◌<◌, length, set, eqb};
ghost use Rattle.lists.specs.Regions.{view};
ghost use Rattle.chains.specs.Links.{id_in, link_to};
ghost use Rattle.chains.specs.Chains.{Linked};
ghost use Rattle.chains.specs.ByWord.{word_bucket};
ghost use Rattle.mesh_filter.specs.Room.{points_in_room, facets_in_room, CornersNumbered, FilteredSoFar, FacetFiltered, Filtered};

use crate::corners::{WeldedAt, corners_key, has_repeated_corner};
use chains::{Chains, Hashed};
use geometry::mesh::MeshLists;
use geometry::triangle::MeshTriangle;
use words::{write_three, zero_part};

// The filter of the n facets of a mesh: where its welded vertices stand in the work room, and where the filter's table stands.
#[derive(Clone, Copy)]
pub struct Filter<'a> {
    pub welded: WeldedAt,
    pub mesh: MeshLists<'a>,
    pub at: usize,
    pub n: usize,
    pub eps: f64,
}

impl Filter<'_> {
    // The first of the `count` facets that passed with this key.
    fn find_key(&self, m: &[u64], count: usize, key: u64) -> Option<usize>
        requires n_nonzero { (0 < self.now.n) × ((self.now.n ≤ 65536) × (count ≤ self.now.n)) }
        requires n_in_bounds { self.now.at + 14 * self.now.n ≤ length m.now }
        requires linked { Linked (word_bucket (view m.now (self.now.at + 9 * self.now.n) count) (4 * self.now.n)) m.now self.now.at (4 * self.now.n) count }
        ensures { result ≡ id_in (link_to (eqb key) (view m.now (self.now.at + 9 * self.now.n) count)) }
    {
        let keys = self.at + 9 * self.n;
        let end = keys + count;
        let table = Hashed {
            chains: Chains {
                at: self.at,
                nb: 4 * self.n,
            },
        };
        table.find_word(m, &m[keys..end], key)
    }

    // Enters facet f, with this key and these corners, as the one that passed at `count`.
    fn put_facet(&self, m: &mut [u64], count: usize, f: usize, key: u64, t: MeshTriangle)
        requires n_in_bounds { self.now.at + 14 * self.now.n ≤ length m.old }
        requires count_lt_n { count < self.now.n }
        ensures { m.new ≡ set
            (set (set (set (set m.old (self.now.at + 9 * self.now.n + count) key) (self.now.at + 10 * self.now.n + count) f)
            (self.now.at + 11 * self.now.n + 3 * count) t.a.0) (self.now.at + 11 * self.now.n + 3 * count + 1) t.b.0)
            (self.now.at + 11 * self.now.n + 3 * count + 2) t.c.0 }
    {
        m[self.at + 9 * self.n + count] = key;
        m[self.at + 10 * self.n + count] = f as u64;
        let corners = self.at + 11 * self.n + 3 * count;
        write_three(m, corners, t.a.0 as u64, t.b.0 as u64, t.c.0 as u64);
    }

    // Facet f after the `count` that passed before it; how many have passed then.
    // Stays (plainer), point 5: `CornersNumbered` holds of a room that the filter writes between two facets; for those that only read it a struct would be made anew at each facet.
    fn filter_facet(&self, m: &mut [u64], f: usize, count: usize) -> usize
        requires f_lt_n { f < self.now.n }
        requires numbered { CornersNumbered self.now.welded self.now.mesh.vertices.now self.now.mesh.facets.now self.now.at self.now.n m.old }
        requires filtered_so_far { FilteredSoFar self.now.eps (points_in_room self.now.welded self.now.mesh.vertices.now m.old)
            (facets_in_room self.now.welded self.now.mesh.vertices.now self.now.mesh.facets.now m.old) self.now.at self.now.n f count m.old }
        ensures { FacetFiltered self.now.eps (points_in_room self.now.welded self.now.mesh.vertices.now m.old)
            (facets_in_room self.now.welded self.now.mesh.vertices.now self.now.mesh.facets.now m.old) self.now.at self.now.n (f + 1) result m.old m.new }
    {
        let t = self.corners_of(m, f);
        if has_repeated_corner(t) || self.is_flat(m, t) {
            return count;
        }
        let key = corners_key(t);
        if self.find_key(m, count, key).is_some() {
            return count;
        }
        let table = Hashed {
            chains: Chains {
                at: self.at,
                nb: 4 * self.n,
            },
        };
        let b = table.bucket(key, 0, 0);
        table.chains.enter(m, count, b);
        self.put_facet(m, count, f, key, t);
        count + 1
    }

    // How many of the n facets pass.
    pub fn filter(&self, m: &mut [u64]) -> usize
        requires { CornersNumbered self.now.welded self.now.mesh.vertices.now self.now.mesh.facets.now self.now.at self.now.n m.old }
        ensures { Filtered self.now.eps (points_in_room self.now.welded self.now.mesh.vertices.now m.old)
            (facets_in_room self.now.welded self.now.mesh.vertices.now self.now.mesh.facets.now m.old) self.now.at self.now.n result m.old m.new }
    {
        zero_part(m, self.at, 8 * self.n);
        let mut count = 0;
        for f in 0..self.n {
            count = self.filter_facet(m, f, count);
        }
        count
    }
}
