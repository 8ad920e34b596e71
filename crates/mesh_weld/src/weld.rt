// Welding, vertex by vertex (the first loop of `clean_mesh` in mesh_cleanup.rs).
// Stays (C interface), point 6: chains, kept vertices, numbers and cells are places in the lent room, since C lends one buffer and there is no heap.
ghost use Rattle.std.specs.Prelude.{◌≡◌, ◌+◌, ◌*◌, ◌≤◌, ◌<◌, length, set};
ghost use Rattle.mesh_weld.specs.Room.{KeysIn, WeldedSoFar, Welds};

use crate::cells::{Cell, cell_of};
use crate::search::Kept;
use chains::{Chains, Hashed};
use geometry::numbers::MeshVertexId;
use geometry::vertices::vertex_at;
use words::{write_three, zero_part};

// Enters the vertex v, of the cell c, as the kept vertex at `count`.
fn keep(m: &mut [u64], n: usize, count: usize, v: MeshVertexId, c: Cell)
    requires { (14 * n ≤ length m.old) × (count < n) }
    ensures { m.new ≡ set (set (set (set m.old (9 * n + count) v.0) (11 * n + 3 * count) c.x)
        (11 * n + 3 * count + 1) c.y) (11 * n + 3 * count + 2) c.z }
{
    m[9 * n + count] = v.0 as u64;
    write_three(m, 11 * n + 3 * count, c.x, c.y, c.z);
}

// Welds the vertex v; how many are kept then. The room is written between two searches, so that `Kept`, which only reads it, is made anew for each.
fn weld_vertex(
    m: &mut [u64],
    vs: &[f64],
    n: usize,
    v: MeshVertexId,
    count: usize,
    eps: f64,
) -> usize
    requires welded_so_far { WeldedSoFar vs.now eps n v.0 count m.old }
    requires keys_in { KeysIn vs.now eps n }
    requires v_lt_n { v.0 < n }
    ensures { WeldedSoFar vs.now eps n (v.0 + 1) result m.new }
{
    let i = v.0;
    let p = vertex_at(vs, v);
    let c = cell_of(p, eps);
    let kept = Kept {
        room: m,
        vertices: vs,
        n,
        count,
        eps,
    };
    if let Some(k) = kept.search(c, p) {
        m[10 * n + i] = k as u64;
        return count;
    }
    let table = Hashed {
        chains: Chains { at: 0, nb: 4 * n },
    };
    let b = table.bucket(c.x, c.y, c.z);
    table.chains.enter(m, count, b);
    keep(m, n, count, v, c);
    m[10 * n + i] = count as u64;
    count + 1
}

// Welds the n vertices of vs. The room then has the numbers of the kept ones from 9 n on, and each vertex's new number from 10 n on.
pub fn weld(m: &mut [u64], vs: &[f64], n: usize, eps: f64) -> usize
    requires n_bound { (n < 268435456) × (3 * n ≤ length vs.now) × (14 * n ≤ length m.old) }
    requires keys_in { KeysIn vs.now eps n }
    ensures { Welds vs.now eps n m.new result }
{
    zero_part(m, 0, 8 * n);
    let mut count = 0;
    for i in 0..n {
        count = weld_vertex(m, vs, n, MeshVertexId(i), count, eps);
    }
    count
}
