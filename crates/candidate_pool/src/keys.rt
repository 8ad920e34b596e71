// Candidates by their keys (boundary_closure.rs, `point_to_candidate`; `quantized_point_key` is the cell of mesh_weld). The room of n candidates stands in w: their keys, three words
// each, and the bucket chains, n heads, n tails and n nexts (room.rt).
// Stays (C interface), point 6: keys and chains stand at places of the lent room, since C lends one buffer and there is no heap.
ghost use Rattle.std.specs.Prelude.{◌≡◌, ◌+◌, ◌*◌, ◌<◌, length};
ghost use Rattle.lists.specs.Lists.{first, up_to};
ghost use Rattle.candidate_pool.specs.Offsets.{keys_at};
ghost use Rattle.mesh_weld.specs.Room.{cell_at, same_cell};
ghost use Rattle.candidate_pool.specs.Room.{key_bucket, KeyTable};

use crate::room::Room;
use chains::Chains;
use mesh_weld::cells::{Cell, cell_at};

fn is_key_at(w: &[u64], at: usize, key: Cell) -> bool
    requires { at + 2 < length w.now }
    ensures { result ≡ same_cell (cell_at w.now at) key }
{
    cell_at(w, at) == key
}

// The first of `count` candidates with the key, by the chain of its bucket b.
pub fn find_key(w: &[u64], room: Room, count: usize, key: Cell, b: usize) -> Option<usize>
    requires key_table { KeyTable w.now room.n count }
    requires b_value { (b ≡ key_bucket room.n key) × (b < room.n) }
    ensures { result ≡ first (λ i. same_cell (cell_at w.now (keys_at room.n + 3 * i)) key) (up_to count) }
{
    let chains = Chains {
        at: room.chain_at(),
        nb: room.n,
    };
    let mut here = chains.first(w, b);
    // Stays (plainer): a walk along a chain, whose next place is read from the table.
    while let Some(i) = here {
        if is_key_at(w, room.keys_at() + 3 * i, key) {
            return Some(i);
        }
        here = chains.next(w, i);
    }
    None
}
