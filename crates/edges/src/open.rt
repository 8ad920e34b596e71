// boundary_closure.rs, `detect_boundary_edges`: the edges that exactly one side bears.
// Stays (C interface), point 6: n records at the front of the lent room, since C lends one buffer and there is no heap.
ghost use Rattle.std.specs.Prelude.{◌≡◌, ◌*◌, ◌%◌, ◌≤◌, ◌<◌, length, take};
ghost use Rattle.lists.specs.Order.{Ascending};
ghost use Rattle.records.specs.Records.{records, record_before};
ghost use Rattle.edges.specs.Table.{KeptOpen, OpenEdges};

use crate::table::sort_sides;

// Moves the records whose key stands only once to the front, in order, and answers how many they are. The first record of a run is stored before
// it is known to be alone; the next one is then stored over it.
pub fn keep_open(w: &mut [u64], n: usize) -> usize
    requires n_in_bounds { 2 * n ≤ length w.old }
    requires ascending { Ascending record_before (records (take (2 * n) w.old)) }
    ensures { KeptOpen w.old w.new n result }
{
    let mut k = 0;
    let mut i = 0;
    // Stays (plainer): from run to run; a `for` would count single records.
    while i < n {
        let end = records::run_end(w, 0, n, i);
        records::move_record(w, 2 * i, 2 * k);
        k += (end == i + 1) as usize;
        i = end;
    }
    k
}

// Writes the records of the open edges, in ascending order of their pair, to the front of w, and answers how many they are. The first 4 words
// a side are used, and end as zero behind the records.
pub fn open_edges(facets: &[u32], w: &mut [u64]) -> usize
    requires { (length facets.now % 3 ≡ 0) × (4 * length facets.now ≤ length w.old) }
    ensures { OpenEdges facets.now w.old w.new result }
{
    sort_sides(facets, w);
    let n = facets.len();
    let k = keep_open(w, n);
    words::zero_part(w, 2 * k, 2 * (n - k));
    k
}
