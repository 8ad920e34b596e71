// The tests of candidates before 12, which are those of caps too.
// Stays (C interface), point 6: n says where the open edges stand in the lent room, since C lends one buffer and there is no heap; k counts them.
ghost use Rattle.std.specs.Prelude.{◌≡◌, ◌&&◌};
ghost use Rattle.lists.specs.Lists.{every};
ghost use Rattle.refusals.specs.Refusals.{first_refusal};
ghost use Rattle.input_tests.specs.Front.{limits, in_range, eps_in_range, resolution_in_range, box_in_range};
ghost use Rattle.candidate_edges.specs.Steps.{MeshFits};
ghost use Rattle.closure_tests.specs.Tests.{closure_tests, edge_tests};
ghost use Rattle.candidate_surface.specs.Steps.{Tabled};

use candidate_edges::open::stray_edge;
use candidate_pool::room::Room;
use candidate_surface::asked::Asked;
use geometry::mesh::MeshLists;
use input_tests::boxes::{box_in_range, is_bad_box};
use input_tests::grid::{box_has_far_key, has_far_key};
use input_tests::{all_in_range, check_lists, eps_in_range, resolution_in_range, work_need};
use refusals::refusal::Refusal;
use words::unpack_pair;

// 4
fn numbers_in_range(vertices: &[f64], asked: Asked) -> bool
    ensures { result ≡ (every in_range vertices.now && (box_in_range asked.extents && (eps_in_range asked.eps && resolution_in_range asked.resolution))) }
{
    all_in_range(vertices)
        && box_in_range(asked.extents)
        && eps_in_range(asked.eps)
        && resolution_in_range(asked.resolution)
}

// Tests 1 to 7, for a cap list of the length `caps`.
pub fn check_closure(
    mesh: MeshLists<'_>,
    caps: usize,
    asked: Asked,
    ceiling: u64,
    lent: usize,
) -> Result<(), Refusal>
    ensures { result ≡ first_refusal (closure_tests mesh.entry.vertices.now mesh.entry.facets.now asked caps (limits ceiling lent)) }
{
    check_lists(ceiling, mesh, caps)?;
    if !numbers_in_range(mesh.vertices, asked) {
        return Err(Refusal::BadNumber);
    }
    if is_bad_box(asked.extents) {
        return Err(Refusal::BadBox);
    }
    let Some(cuts) = asked.grid().cut() else {
        return Err(Refusal::GridTooFine);
    };
    let points = cuts.size();
    let need = work_need(
        mesh.vertices.len() / 3,
        mesh.facets.len() / 3,
        caps / 4,
        points,
    );
    if lent < need {
        return Err(Refusal::NoWorkRoom(need));
    }
    Ok(())
}

// Tests 8 and 9, of a mesh whose k open edges stand in the room.
pub fn check_edges(
    mesh: MeshLists<'_>,
    asked: Asked,
    w: &[u64],
    n: usize,
    k: usize,
) -> Result<(), Refusal>
    requires mesh_fits { MeshFits mesh.vertices.now mesh.facets.now n w.now }
    requires tabled { Tabled mesh.facets.now n k w.now }
    ensures { result ≡ first_refusal (edge_tests mesh.entry.vertices.now mesh.entry.facets.now asked) }
{
    if has_far_key(mesh.vertices, asked.eps) || box_has_far_key(asked.extents, asked.eps) {
        return Err(Refusal::KeyRange);
    }
    if let Some(stray) = stray_edge(w, mesh, n, k, asked.clip()) {
        let room = Room {
            n,
            nf: mesh.facets.len() / 3,
        };
        let key = w[room.edge_table_at() + 2 * stray];
        let (smaller, greater) = unpack_pair(key);
        return Err(Refusal::OpenEdge(smaller as usize, greater as usize));
    }
    Ok(())
}
