// Edges that no closed surface has (document 02, E13): borne by three or more sides, or by two that run the same way. They are found in the edge
// table, whose runs are the edges.
// Stays (C interface), point 6: the edge table and the list stand in the lent room, since C lends one buffer and there is no heap.
#![tactic(auto)]

ghost use Rattle.std.specs.Prelude.{◌≡◌, ◌+◌, ◌*◌, ◌-◌, ◌%◌, ◌≤◌, ◌<◌, length, take};
ghost use Rattle.records.specs.Buffer.{records_at};
ghost use Rattle.records.specs.Records.{records};
ghost use Rattle.geometry.specs.Triangles.{threes};
ghost use Rattle.edges.specs.Edges.{sides};
ghost use Rattle.edges.specs.Table.{edge_table};
ghost use Rattle.irregular_edges.specs.Listed.{irregular_run, IrregularListed};

use edges::edge_from;
use records::{put_record, run_end};
use words::unpack_pair;

// Whether the sides of the records from i up to e, which are all that bear a pair, make it irregular. Of two that bear one pair it is enough to ask
// where they begin.
fn is_irregular(facets: &[u32], w: &[u64], i: usize, e: usize) -> bool
    requires facets_len { (length facets.now % 3 ≡ 0) × (i < e) × (e ≤ length facets.now) × (2 * length facets.now ≤ length w.now) }
    requires w_value { records (take (2 * length facets.now) w.now) ≡ edge_table (sides (threes facets.now)) }
    ensures { result ≡ irregular_run (sides (threes facets.now)) (records_at w.now (2 * i) (e - i)) }
{
    if e - i != 2 {
        return e - i > 2;
    }
    let first = edge_from(facets, w[2 * i + 1] as usize);
    let second = edge_from(facets, w[2 * i + 3] as usize);
    first == second
}

// Writes the irregular edges, two words each, from `at` on and answers how many they are. The edge table stands at the front.
pub fn irregular_edges(facets: &[u32], w: &mut [u64], at: usize) -> usize
    requires facets_len { (length facets.now % 3 ≡ 0) × (2 * length facets.now ≤ at) × (at + length facets.now ≤ length w.old) }
    requires w_value { records (take (2 * length facets.now) w.old) ≡ edge_table (sides (threes facets.now)) }
    ensures { IrregularListed facets.now w.old w.new at result }
{
    let n = facets.len();
    let mut q = 0;
    let mut i = 0;
    // Stays (plainer): from run to run; a `for` would count single records.
    while i < n {
        let e = run_end(w, 0, n, i);
        if is_irregular(facets, w, i, e) {
            let ends = unpack_pair(w[2 * i]);
            put_record(w, at + 2 * q, ends);
            q += 1;
        }
        i = e;
    }
    q
}
