// Components of open edges (document 02, E13), staged in the work room: the edges in groups, and of each group how many edges it has and whether
// it is a ring. Item i is open edge i, its labels are its two ends, so that `components` joins what shares a vertex; a component's number is its
// smallest edge, and records (number, edge), sorted, are the groups in order.
// Stays (C interface), point 6: `group_edges` is told where its tables begin and how large they are, since C lends one buffer and there is no heap; its steps are lent slices.
#![tactic(auto)]

ghost use Rattle.std.specs.Prelude.{◌≡◌, ℕ, ◌+◌, ◌*◌, ◌/◌, ◌-◌, ◌≤◌, ◌<◌, length, get_or};
ghost use Rattle.lists.specs.Lists.{every};
ghost use Rattle.records.specs.Buffer.{records_at};
ghost use Rattle.boundary_groups.specs.Staged.{edge_in, keyed_edges, GroupRoom, Grouped, pair_at, PairsPut, turns_of, ComponentsPut};

use components::{components, tally};
use records::{put_record, run_end};
use sorting::sort_records;
use words::{unpack_pair, zero};

// The ends of the open edges, smaller first, by their records.
fn put_ends(records: &[u64], ends: &mut [u64])
    requires { length ends.old ≤ length records.now }
    ensures { PairsPut (edge_in records.now) ends.new (length ends.old / 2) }
{
    for i in 0..ends.len() / 2 {
        put_record(ends, 2 * i, unpack_pair(records[2 * i]));
    }
}

// A record for each open edge: its component's number, and its own.
fn number_records(numbers: &[u64], records: &mut [u64])
    requires { 2 * length numbers.now ≤ length records.old }
    ensures { PairsPut (λ (i : ℕ). (get_or numbers.now i 0, i)) records.new (length numbers.now) }
{
    for (i, number) in numbers.iter().enumerate() {
        put_record(records, 2 * i, (*number, i as u64));
    }
}

// The ends of the edges in the order of the records.
fn put_grouped(records: &[u64], ends: &[u64], edges: &mut [u64])
    requires by_index { (j : ℕ) → j < length edges.old / 2 → get_or records.now (2 * j + 1) 0 < length ends.now / 2 }
    requires long { (length edges.old ≤ length records.now) × (length edges.old ≤ length ends.now) }
    ensures { PairsPut (λ (j : ℕ). pair_at ends.now (get_or records.now (2 * j + 1) 0)) edges.new (length edges.old / 2) }
{
    for j in 0..edges.len() / 2 {
        let i = records[2 * j + 1] as usize;
        put_record(edges, 2 * j, (ends[2 * i], ends[2 * i + 1]));
    }
}

// The ends of the open edges, and the degrees of the vertices.
#[derive(Clone, Copy)]
struct EndTables<'a> {
    ends: &'a [u64],
    degrees: &'a [u64],
    ghost low: { (i : ℕ) → i < length ends.now → get_or ends.now i 0 < length degrees.now },
}

impl EndTables<'_> {
    // Whether the edge of a record has two ends, each of which is an end of two open edges. All open edges at a vertex are in one component.
    #[tactic(auto, unfolding(crate::specs::Staged::turns_of))]
    fn turns_once(&self, records: &[u64], j: usize) -> bool
        requires j_in { 2 * j + 1 < length records.now }
        requires low { get_or records.now (2 * j + 1) 0 < length self.now.ends.now / 2 }
        ensures { result ≡ turns_of self.now.ends.now self.now.degrees.now (get_or records.now (2 * j) 0, get_or records.now (2 * j + 1) 0) }
    {
        let i = records[2 * j + 1] as usize;
        let a = self.ends[2 * i];
        let b = self.ends[2 * i + 1];
        a != b && self.degrees[a as usize] == 2 && self.degrees[b as usize] == 2
    }

    // Whether the edges of the records from i up to e, which are a component, are a ring.
    fn is_ring(&self, records: &[u64], i: usize, e: usize) -> bool
        requires i_le_e { (i ≤ e) × (e ≤ length records.now / 2) }
        requires low { (j : ℕ) → j < length records.now / 2 → get_or records.now (2 * j + 1) 0 < length self.now.ends.now / 2 }
        ensures { result ≡ every (turns_of self.now.ends.now self.now.degrees.now) (records_at records.now (2 * i) (e - i)) }
    {
        (i..e).all(|j| self.turns_once(records, j))
    }
}

// Of each component its number of edges, and a word that says whether it is a ring. Answers how many components there are.
fn put_components(records: &[u64], ends: &[u64], degrees: &[u64], counts: &mut [u64]) -> usize
    requires long { length records.now ≤ length counts.old }
    requires low { (j : ℕ) → j < length records.now / 2 → get_or records.now (2 * j + 1) 0 < length ends.now / 2 }
    requires degrees_of { (i : ℕ) → i < length ends.now → get_or ends.now i 0 < length degrees.now }
    ensures { ComponentsPut ends.now degrees.now records.now counts.new result }
{
    let tables = EndTables { ends, degrees };
    let k = records.len() / 2;
    let mut c = 0;
    let mut i = 0;
    // Stays (plainer): from run to run; a `for` would count single records.
    while i < k {
        let e = run_end(records, 0, k, i);
        let ring = tables.is_ring(records, i, e);
        put_record(counts, 2 * c, ((e - i) as u64, ring as u64));
        c += 1;
        i = e;
    }
    c
}

// The k open edges, whose records stand at the front, by components. From `at` on stand then: ends, as before (2n words, for n sides); the table of components
// (2n and a word a vertex); degrees (a word a vertex); the edges in groups (2n); the components (2n). Answers how many components there are.
pub fn group_edges(w: &mut [u64], k: usize, n: usize, m: usize, at: usize) -> usize
    requires { GroupRoom w.old k n m at }
    ensures { Grouped (keyed_edges w.old k) w.old w.new k n m at result }
{
    let (front, room) = w.split_at_mut(at);
    let (ends, room) = room.split_at_mut(2 * n);
    let (numbers, room) = room.split_at_mut(2 * n + m);
    let (degrees, room) = room.split_at_mut(m);
    let (edges, counts) = room.split_at_mut(2 * n);
    let ends = &mut ends[..2 * k];
    put_ends(front, ends);
    components(numbers, ends, 2, m);
    zero(degrees);
    tally(ends, degrees);
    number_records(&numbers[..k], &mut front[..2 * k]);
    sort_records(front, k);
    put_grouped(front, ends, &mut edges[..2 * k]);
    put_components(&front[..2 * k], ends, degrees, counts)
}
