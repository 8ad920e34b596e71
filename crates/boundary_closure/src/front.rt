// The operation candidates: the order of its steps.
// Stays (C interface), point 6: n says where tables stand in the lent room, since C lends one buffer and there is no heap; k counts its open edges.
ghost use Rattle.std.specs.Prelude.{◌≡◌, [], ◌/◌, ◌≤◌, length};
ghost use Rattle.refusals.specs.Refusals.{documented_reply};
ghost use Rattle.refusals.specs.Answers.{Answer, Answered};
ghost use Rattle.candidate_edges.specs.Steps.{MeshFits};
ghost use Rattle.candidate_pool.specs.Offsets.{room_end};
ghost use Rattle.input_tests.specs.Front.{limits};
ghost use Rattle.closure_tests.specs.Tests.{edge_tests};
ghost use Rattle.candidate_outputs.specs.Outputs.{candidate_outputs};
ghost use Rattle.boundary_closure.specs.Operation.{candidates_tests, candidates_result};
ghost use Rattle.candidate_surface.specs.Steps.{Sound, most_candidates, Tabled};
ghost use Rattle.boundary_closure.specs.Steps.{surface_result};

use candidate_constraints::constraints::all_constraints;
use candidate_outputs::outputs::deliver;
use candidate_pool::room::Room;
use candidate_surface::asked::Asked;
use candidate_surface::surface::{complete, enter_surface, most_candidates, table_edges};
use closure_tests::tests::{check_closure, check_edges};
use geometry::mesh::MeshLists;
use refusals::reply::Reply;
use words::zero;

// All that follows test 9, for a mesh with k open edges. "if no open edge keeps two ends", all four lengths are 0.
fn list_candidates(
    mesh: MeshLists<'_>,
    asked: Asked,
    w: &mut [u64],
    n: usize,
    k: usize,
    candidates: &mut [u64],
    face_lists: &mut [u64],
    constraints: &mut [u64],
    open_edges: &mut [u64],
) -> Reply<4>
    requires sound { Sound mesh.vertices.now mesh.facets.now asked }
    requires mesh_fits { MeshFits mesh.vertices.now mesh.facets.now n w.old × (n ≡ most_candidates mesh.vertices.now asked) }
    requires tabled { Tabled mesh.facets.now n k w.old }
    ensures { Answer []
        (candidate_outputs (surface_result mesh.entry.vertices.now mesh.entry.facets.now asked) candidates.old candidates.new
        face_lists.old face_lists.new constraints.old constraints.new open_edges.old open_edges.new)
        (documented_reply result) }
{
    let clip = asked.clip();
    let listed = enter_surface(mesh, clip, w, n, k);
    if listed == 0 {
        return Ok([0; 4]);
    }
    complete(mesh, asked, w, n, k);
    let room = Room {
        n,
        nf: mesh.facets.len() / 3,
    };
    let total = all_constraints(w, room, k, clip);
    deliver(
        w,
        room,
        k,
        listed,
        total,
        candidates,
        face_lists,
        constraints,
        open_edges,
    )
}

// Tests 8 and 9 and all that follows, for a mesh that has passed those before.
fn make_candidates(
    mesh: MeshLists<'_>,
    asked: Asked,
    w: &mut [u64],
    candidates: &mut [u64],
    face_lists: &mut [u64],
    constraints: &mut [u64],
    open_edges: &mut [u64],
) -> Reply<4>
    requires sound { Sound mesh.vertices.now mesh.facets.now asked }
    requires facets_in_bounds { room_end (most_candidates mesh.vertices.now asked) (length mesh.facets.now / 3) ≤ length w.old }
    ensures { Answer (edge_tests mesh.entry.vertices.now mesh.entry.facets.now asked)
        (candidate_outputs (surface_result mesh.entry.vertices.now mesh.entry.facets.now asked) candidates.old candidates.new
        face_lists.old face_lists.new constraints.old constraints.new open_edges.old open_edges.new)
        (documented_reply result) }
{
    let n = most_candidates(mesh.vertices, asked);
    let k = table_edges(mesh.facets, w, n);
    check_edges(mesh, asked, w, n, k)?;
    list_candidates(
        mesh,
        asked,
        w,
        n,
        k,
        candidates,
        face_lists,
        constraints,
        open_edges,
    )
}

// Every test, and the four results where they pass. A mesh with no facet has none. The work room is left as it came out.
fn candidates_lent(
    mesh: MeshLists<'_>,
    asked: Asked,
    ceiling: u64,
    work: &mut [u64],
    candidates: &mut [u64],
    face_lists: &mut [u64],
    constraints: &mut [u64],
    open_edges: &mut [u64],
) -> Reply<4>
    ensures { Answer (candidates_tests mesh.entry.vertices.now mesh.entry.facets.now asked (limits ceiling (length work.old)))
        (candidate_outputs (candidates_result mesh.entry.vertices.now mesh.entry.facets.now asked) candidates.old candidates.new
        face_lists.old face_lists.new constraints.old constraints.new open_edges.old open_edges.new)
        (documented_reply result) }
{
    let lent = work.len();
    check_closure(mesh, 0, asked, ceiling, lent)?;
    if mesh.facets.is_empty() {
        return Ok([0, 0, 0, 0]);
    }
    make_candidates(
        mesh,
        asked,
        work,
        candidates,
        face_lists,
        constraints,
        open_edges,
    )
}

// The work room is cleared once, at the end: what was lent may hold anything.
pub fn cap_candidates(
    mesh: MeshLists<'_>,
    asked: Asked,
    ceiling: u64,
    work: &mut [u64],
    candidates: &mut [u64],
    face_lists: &mut [u64],
    constraints: &mut [u64],
    open_edges: &mut [u64],
) -> Reply<4>
    ensures { Answered (candidates_tests mesh.entry.vertices.now mesh.entry.facets.now asked (limits ceiling (length work.old)))
        (candidate_outputs (candidates_result mesh.entry.vertices.now mesh.entry.facets.now asked) candidates.old candidates.new
        face_lists.old face_lists.new constraints.old constraints.new open_edges.old open_edges.new)
        work.old work.new (documented_reply result) }
{
    let reply = candidates_lent(
        mesh,
        asked,
        ceiling,
        work,
        candidates,
        face_lists,
        constraints,
        open_edges,
    );
    zero(work);
    reply
}
