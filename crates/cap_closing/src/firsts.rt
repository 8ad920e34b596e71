// Stays (C interface), point 6: records and marks stand at places of the one room that C lends, and there is no heap.
// "of those left the first for each three mesh corners"
ghost use Rattle.std.specs.Prelude.{◌≡◌, ℕ, ◌+◌, ◌*◌, ◌≤◌, ◌<◌, length, get_or};
ghost use Rattle.records.specs.Buffer.{payload_in};
ghost use Rattle.sorting.specs.Sorting.{SortedPlaces};
ghost use Rattle.cap_triangles.specs.Room.{closing_at};
ghost use Rattle.cap_closing.specs.Steps.{FirstsMarked, Found};

use cap_triangles::room::CapRoom;
use records::{put_by_payload, run_end};
use sorting::sort_records;

// Stays (C interface): the marks are words of the room that C lends, 1 or 0, and the answer is how many runs there are.
// Of each of the `left` facets 1 if its record begins a run, else 0; how many runs there are.
fn mark_firsts(w: &mut [u64], records: usize, firsts: usize, left: usize) -> usize
    requires left_bound { (records + 2 * left ≤ firsts) × (firsts + left ≤ length w.old) }
    requires sorted_places { SortedPlaces w.old records left }
    ensures { FirstsMarked records firsts left result w.old w.new }
{
    let mut count = 0;
    let mut i = 0;
    // Stays (plainer): the loop goes from run to run, whose ends `run_end` finds; a `for` over the records would ask at each whether it begins one.
    while i < left {
        let end = run_end(w, records, left, i);
        put_by_payload(w, records, firsts, i, i + 1, 1);
        put_by_payload(w, records, firsts, i + 1, end, 0);
        count += 1;
        i = end;
    }
    count
}

pub fn find_firsts(w: &mut [u64], room: CapRoom, left: usize) -> usize
    requires left_below { (left ≤ room.nc) × (closing_at room.n room.nf room.nc + 2 * room.n + 8 * room.nc ≤ length w.old) }
    requires by_index { (j : ℕ) → j < left → payload_in w.old (closing_at room.n room.nf room.nc + 2 * room.n + 3 * room.nc) j ≡ j }
    ensures { Found (closing_at room.n room.nf room.nc + 2 * room.n + 3 * room.nc) (closing_at room.n room.nf room.nc + 2 * room.n + 7 * room.nc) left result w.old w.new }
{
    let records = room.threes_at();
    let end = records + 4 * left;
    sort_records(&mut w[records..end], left);
    mark_firsts(w, records, room.firsts_at(), left)
}
