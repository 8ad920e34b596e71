// Stays (C interface), point 6: records and numbers stand at places of the one room that C lends, and there is no heap.
// The pairs of candidates that open edges and sides of supplied triangles have, numbered: two have one number exactly if they have the same two candidates. The Rust's
// `edge_tris` and `boundary_edges` are tables by such a number.
ghost use Rattle.std.specs.Prelude.{◌≡◌, ℕ, ◌+◌, ◌*◌, ◌≤◌, ◌<◌, length, get_or};
ghost use Rattle.sorting.specs.Sorting.{SortedPlaces};
ghost use Rattle.edges.specs.Table.{edge_key};
ghost use Rattle.cap_triangles.specs.Room.{CapReady, turned_at, pair_records_at};
ghost use Rattle.cap_pairs.specs.Pairs.{edge_pair, Numbered};
ghost use Rattle.cap_pairs.specs.Steps.{SmallEdge, side_words, Recorded, FirstsPut, TablesFor};
ghost use Rattle.candidate_pool.specs.Offsets.{open_edges_at};

use cap_triangles::room::{CapRoom, SuppliedCaps};
use edges::next_side;
use records::{put_by_payload, run_end};
use sorting::sort_records;

// Stays (plainer): what the packing asks of two words.
// Two candidates in one word, the same either way round.
fn pair_word(a: u64, b: u64) -> u64
    requires { (a < 4294967296) × (b < 4294967296) }
    ensures { result ≡ edge_key (a, b) }
{
    words::pack_edge(a, b)
}

// The pair of an open edge in one word. One that kept one end has no face, and gets the word of no triangle's side.
fn edge_word(w: &[u64], at: usize) -> u64
    requires { (at + 2 < length w.now) × SmallEdge w.now at }
    ensures { result ≡ edge_key (edge_pair w.now at) }
{
    if w[at + 2] == 0 {
        return 0;
    }
    pair_word(w[at], w[at + 1])
}

// Records of the open edges.
fn put_edges(w: &mut [u64], room: CapRoom)
    requires tables_for { TablesFor room.n room.nf room.nc w.old room.k }
    requires by_index { (i : ℕ) → i < room.k → SmallEdge w.old (open_edges_at room.n room.nf + 3 * i) }
    ensures { Recorded (λ i. edge_pair w.old (open_edges_at room.n room.nf + 3 * i)) w.old w.new (pair_records_at room.n room.nf room.nc) 0 room.k }
{
    let edges = room.open_edges_at();
    let records = room.records_at();
    for i in 0..room.k {
        w[records + 2 * i] = edge_word(w, edges + 3 * i);
        w[records + 2 * i + 1] = i as u64;
    }
}

// Behind them, records of the sides of the turned triangles.
fn put_sides(w: &mut [u64], room: CapRoom)
    requires tables_for { TablesFor room.n room.nf room.nc w.old room.k }
    requires by_index { (s : ℕ) → s < 3 * room.nc → get_or w.old (turned_at room.n room.nf + s) 0 < 4294967296 }
    ensures { Recorded (side_words w.old (turned_at room.n room.nf)) w.old w.new (pair_records_at room.n room.nf room.nc + 2 * room.k) room.k (3 * room.nc) }
{
    let turned = room.turned_at();
    let records = room.records_at() + 2 * room.k;
    for s in 0..3 * room.nc {
        w[records + 2 * s] = pair_word(w[turned + s], w[turned + next_side(s)]);
        w[records + 2 * s + 1] = (room.k + s) as u64;
    }
}

// The number of a pair is the place of its first record among p sorted ones.
fn number_records(w: &mut [u64], records: usize, numbers: usize, p: usize)
    requires p_bound { (records + 2 * p ≤ numbers) × (numbers + p ≤ length w.old) }
    requires sorted_places { SortedPlaces w.old records p }
    ensures { FirstsPut w.old w.new records numbers p }
{
    let mut i = 0;
    // Stays (plainer): the loop goes from run to run, whose ends `run_end` finds; a `for` over the records would ask at each whether it begins one.
    while i < p {
        let end = run_end(w, records, p, i);
        put_by_payload(w, records, numbers, i, end, i as u64);
        i = end;
    }
}

pub fn number_pairs(w: &mut [u64], caps: SuppliedCaps<'_>)
    requires { CapReady caps.n caps.nf caps.k caps.list.now w.old }
    ensures { Numbered caps.entry.n caps.entry.nf caps.entry.k caps.entry.list.now w.old w.new }
{
    let nc = caps.list.len() / 4;
    let room = CapRoom {
        n: caps.n,
        nf: caps.nf,
        nc,
        k: caps.k,
    };
    put_edges(w, room);
    put_sides(w, room);
    let records = room.records_at();
    let p = caps.k + 3 * nc;
    sort_records(&mut w[records..records + 4 * p], p);
    number_records(w, records, room.numbers_at(), p);
}
