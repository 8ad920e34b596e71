// Where the tables of caps stand in the work room, behind those of candidates (candidate_pool, room.rt), for at most n candidates, nf facets and nc supplied triangles. A pair is
// two candidates that an open edge or a triangle's side has; there are at most 3 nf + 3 nc. From `room_end` on, in words:
//   0                     3 nc             supplied triangles turned outward: three candidates
//   3 nc                  12 nf + 12 nc    pairs: records (packed, which edge or side), and the sort's scratch
//   12 nf + 15 nc         3 nf + 3 nc      of each open edge and then of each side the number of its pair
//   15 nf + 18 nc         3 nf + 3 nc      of a pair the faces of open edges that run from its lesser candidate to its greater
//   18 nf + 21 nc         3 nf + 3 nc      and of those that run from its greater to its lesser
//   21 nf + 24 nc         3 nf + 3 nc      and of the triangles that hold it
//   24 nf + 27 nc         3 nc             labels: three a triangle
//   24 nf + 30 nc         3 nf + 8 nc      the table of components
//   27 nf + 38 nc         nc               of a component 1 if it holds a seed
//   27 nf + 39 nc         n                of a candidate its vertex + 1, or 0 while it has none
//   27 nf + 39 nc + n     n                candidates that became new vertices, in order
//   27 nf + 39 nc + 2 n   3 nc             facets left after the area test
//   27 nf + 42 nc + 2 n   4 nc             records (three corners packed, place), and the sort's scratch
//   27 nf + 46 nc + 2 n   nc               of a facet left 1 if it is the first of its three corners
//   27 nf + 47 nc + 2 n   1                how many vertices there are so far
// In all 9 + 65 (vertices + G) + 93 facets + 47 triangles, of the 128 (vertices + facets + triangles + G) + 1,024 that are lent.
ghost use Rattle.std.specs.Prelude.{◌≡◌, ◌+◌, ◌*◌, ◌≤◌, ◌<◌};
ghost use Rattle.candidate_pool.specs.Offsets.{open_edges_at};
ghost use Rattle.cap_triangles.specs.Room.{turned_at, pair_records_at, numbers_at, up_at, down_at, held_at, labels_at, components_at, seeded_at, closing_at};

use candidate_pool::room::Room;

// The supplied triangles, a face and three candidates each, and what they close: k open edges, which stand in a room for at most n candidates and nf facets.
#[derive(Clone, Copy)]
pub struct SuppliedCaps<'a> {
    pub n: usize,
    pub nf: usize,
    pub k: usize,
    pub list: &'a [u64],
}

// How many of each the tables have room for, and how many open edges there are.
#[derive(Clone, Copy)]
pub struct CapRoom {
    pub n: usize,
    pub nf: usize,
    pub nc: usize,
    pub k: usize,
    pub ghost small: { (n < 268435456) × (nf < 268435456) × (nc < 268435456) },
}

// Stays (plainer): a method for each table, by its name; one method for all would be told which by an enum of their names.
impl CapRoom {
    // among the tables of candidates
    pub fn open_edges_at(self) -> usize
        ensures { result ≡ open_edges_at self.n self.nf }
    {
        Room {
            n: self.n,
            nf: self.nf,
        }
        .open_edges_at()
    }

    pub fn turned_at(self) -> usize
        ensures { result ≡ turned_at self.n self.nf }
    {
        Room {
            n: self.n,
            nf: self.nf,
        }
        .end()
    }

    // the table that stands so many words a facet and a triangle behind where those of caps begin
    fn table(self, facets: usize, caps: usize) -> usize
        requires { (facets ≤ 27) × (caps ≤ 39) }
        ensures { result ≡ turned_at self.n self.nf + facets * self.nf + caps * self.nc }
    {
        self.turned_at() + facets * self.nf + caps * self.nc
    }

    pub fn records_at(self) -> usize
        ensures { result ≡ pair_records_at self.n self.nf self.nc }
    {
        self.turned_at() + 3 * self.nc
    }

    pub fn numbers_at(self) -> usize
        ensures { result ≡ numbers_at self.n self.nf self.nc }
    {
        self.table(12, 15)
    }

    pub fn up_at(self) -> usize
        ensures { result ≡ up_at self.n self.nf self.nc }
    {
        self.table(15, 18)
    }

    pub fn down_at(self) -> usize
        ensures { result ≡ down_at self.n self.nf self.nc }
    {
        self.table(18, 21)
    }

    pub fn held_at(self) -> usize
        ensures { result ≡ held_at self.n self.nf self.nc }
    {
        self.table(21, 24)
    }

    pub fn labels_at(self) -> usize
        ensures { result ≡ labels_at self.n self.nf self.nc }
    {
        self.table(24, 27)
    }

    pub fn components_at(self) -> usize
        ensures { result ≡ components_at self.n self.nf self.nc }
    {
        self.table(24, 30)
    }

    pub fn seeded_at(self) -> usize
        ensures { result ≡ seeded_at self.n self.nf self.nc }
    {
        self.table(27, 38)
    }

    // behind the tables of the selection: the vertices given to candidates
    pub fn given_at(self) -> usize
        ensures { result ≡ closing_at self.n self.nf self.nc }
    {
        self.table(27, 39)
    }

    // the table that stands so many words a candidate and a triangle behind that one
    fn closing_table(self, candidates: usize, caps: usize) -> usize
        requires { (candidates ≤ 2) × (caps ≤ 8) }
        ensures { result ≡ closing_at self.n self.nf self.nc + candidates * self.n + caps * self.nc }
    {
        self.given_at() + candidates * self.n + caps * self.nc
    }

    pub fn fresh_at(self) -> usize
        ensures { result ≡ closing_at self.n self.nf self.nc + self.n }
    {
        self.given_at() + self.n
    }

    pub fn left_at(self) -> usize
        ensures { result ≡ closing_at self.n self.nf self.nc + 2 * self.n }
    {
        self.given_at() + 2 * self.n
    }

    pub fn threes_at(self) -> usize
        ensures { result ≡ closing_at self.n self.nf self.nc + 2 * self.n + 3 * self.nc }
    {
        self.closing_table(2, 3)
    }

    pub fn firsts_at(self) -> usize
        ensures { result ≡ closing_at self.n self.nf self.nc + 2 * self.n + 7 * self.nc }
    {
        self.closing_table(2, 7)
    }

    // how many vertices there are so far
    pub fn vertices_at(self) -> usize
        ensures { result ≡ closing_at self.n self.nf self.nc + 2 * self.n + 8 * self.nc }
    {
        self.closing_table(2, 8)
    }
}
