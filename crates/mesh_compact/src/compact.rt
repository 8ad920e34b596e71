// The facets that are kept, and their vertices (`remove_small_disconnected_components` of mesh_cleanup.rs).
// Stays (C interface), point 6: kept vertices, corners and tables are places in the lent room, since C lends one buffer and there is no heap.
ghost use Rattle.mesh_compact.specs.Room.{Lent, MeshCompacted};

use crate::renumber::Renumbering;
use components::components;

// A mesh to be written, as it stands in the work room: the old numbers of its vertices from `order` on, the numbers of its facets' corners from `corners` on.
#[derive(Clone, Copy)]
pub struct Staged {
    pub order: usize,
    pub vertices: usize,
    pub corners: usize,
    pub numbers: usize,
}

// Drops the components of fewer than `least` facets: of the k that passed, whose corners stand from `facets` on, among the n kept vertices from `kept` on. Behind `at` it has a
// table of components, 2 words a facet and 1 a vertex, and one of numbers, 6 a facet and 1 a vertex.
// Stays (plainer): a part of the room is handed in by its facets, where `Staged` counts corners; as one its number would be divided by 3 again, under a clause that it can be.
pub fn remove_small_disconnected_components(
    m: &mut [u64],
    kept: usize,
    n: usize,
    facets: usize,
    k: usize,
    at: usize,
    least: u64,
) -> Staged
    requires { Lent kept n facets k at m.old }
    ensures { MeshCompacted kept n facets k least result m.old m.new }
{
    if k == 0 || least <= 1 {
        return Staged {
            order: kept,
            vertices: n,
            corners: facets,
            numbers: 3 * k,
        };
    }
    let (front, parts) = m.split_at_mut(at);
    components(parts, &front[facets..facets + 3 * k], 3, n);
    let table = at + 2 * k + n;
    let renumbering = Renumbering {
        kept,
        n,
        facets,
        k,
        parts: at,
        at: table,
        least,
    };
    let used = renumbering.renumber(m);
    Staged {
        order: table + n,
        vertices: used.vertices,
        corners: table + n + 3 * k,
        numbers: used.corners,
    }
}
