// boundary_closure.rs, `append_selected_candidate_caps`.
ghost use Rattle.std.specs.Prelude.{ℕ, ◌+◌, ◌/◌, ◌<◌, length, get_or};
ghost use Rattle.candidate_edges.specs.Steps.{VerticesIn};
ghost use Rattle.cap_triangles.specs.Room.{components_at, TurnedReady};
ghost use Rattle.cap_closing.specs.Entering.{Closed, MeshWords};

use crate::appending::append_caps;
use crate::entering::start_entering;
use crate::firsts::find_firsts;
use cap_triangles::room::{CapRoom, SuppliedCaps};

// How many facets are left after the area test, and how many of them are the first of their three corners.
#[derive(Clone, Copy)]
pub struct CapCount {
    pub left: usize,
    pub caps: usize,
}

// Stays (plainer): `positive` tells the two modes that close apart; `BoundaryClosure` has a third, which never comes here.
// The caps of the triangles that the mode takes, in the room.
pub fn close_caps(
    w: &mut [u64],
    vertices: &[f64],
    caps: SuppliedCaps<'_>,
    positive: bool,
) -> CapCount
    requires turned_ready { TurnedReady caps.n caps.nf caps.list.now w.old }
    requires vertices_in { VerticesIn vertices.now × (length vertices.now / 3 < 1048576) × MeshWords (length vertices.now / 3) w.old }
    requires by_index { (i : ℕ) → i < length caps.list.now / 4
        → get_or w.old (components_at caps.n caps.nf (length caps.list.now / 4) + i) 0 < length caps.list.now / 4 }
    ensures { Closed vertices.now caps.entry.n caps.entry.nf caps.entry.list.now positive result.left result.caps w.old w.new }
{
    let nc = caps.list.len() / 4;
    let room = CapRoom {
        n: caps.n,
        nf: caps.nf,
        nc,
        k: caps.k,
    };
    start_entering(w, room, vertices.len() / 3);
    let left = append_caps(w, vertices, room, positive);
    let firsts = find_firsts(w, room, left);
    CapCount { left, caps: firsts }
}
