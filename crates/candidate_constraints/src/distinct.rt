// Stays (C interface), point 6: pairs and constraints stand at places of the one room that C lends, and there is no heap.
// "listed ascending, once": of sorted pairs the key of each run.
ghost use Rattle.std.specs.Prelude.{◌+◌, ◌*◌, ◌≤◌};
ghost use Rattle.candidate_constraints.specs.Steps.{Roomy, Distinct};

use candidate_pool::room::Room;
use records::run_end;

// Behind `total` constraints.
pub fn keep_distinct(w: &mut [u64], room: Room, c: usize, total: usize) -> usize
    requires roomy { Roomy room.n room.nf w.old }
    requires c_bound { (c ≤ 4 * room.n + 3 * room.nf) × (total + (4 * room.n + 3 * room.nf) ≤ 24 * room.n + 18 * room.nf) }
    ensures { Distinct room.n room.nf c total result w.old w.new }
{
    let pairs = room.pairs_at();
    let at = room.constraints_at();
    let mut t = total;
    let mut i = 0;
    // Stays (plainer): the loop goes from run to run, whose ends `run_end` finds; a `for` over the pairs would ask at each whether it begins one.
    while i < c {
        let end = run_end(w, pairs, c, i);
        let key = w[pairs + 2 * i];
        w[at + t] = key;
        t += 1;
        i = end;
    }
    t
}
