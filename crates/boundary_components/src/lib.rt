// Open boundaries listed (document 02, E13): open edges by components, rings among these, and edges that no closed surface has.
// Stays (C interface), point 6: the mesh's vertices are a number and the room is one lent buffer, since C lends them so and there is no heap.
#![tactic(auto)]

ghost use Rattle.std.specs.Prelude.{◌≡◌, [], ◌+◌, ◌≤◌, length};
ghost use Rattle.geometry.specs.Triangles.{threes};
ghost use Rattle.refusals.specs.Refusals.{documented_reply, first_refusal};
ghost use Rattle.refusals.specs.Answers.{Answer, Answered};
ghost use Rattle.input_tests.specs.Front.{limits};
ghost use Rattle.boundary_components.specs.Boundary.{boundary_tests, boundary_outputs};
ghost use Rattle.boundary_components.specs.Steps.{Ready, Listed};

use boundary_groups::group_edges;
use edges::{keep_open, sort_sides};
use input_tests::{has_bad_index, is_ragged, is_too_many, most_admitted, work_need};
use irregular_edges::irregular_edges;
use refusals::refusal::Refusal;
use refusals::reply::Reply;
use words::{copy_front, zero, zero_part};

// Tests 1, 2, 3 and 7, in that order.
fn check(vertices: u64, facets: &[u32], ceiling: u64, lent: usize) -> Result<(), Refusal>
    ensures { result ≡ first_refusal (boundary_tests vertices facets.now (limits ceiling lent)) }
{
    if is_ragged(facets.len(), 3) {
        return Err(Refusal::Ragged);
    }
    let most = most_admitted(ceiling);
    if vertices > most as u64 {
        return Err(Refusal::TooMany);
    }
    if is_too_many(most, facets.len(), 3) {
        return Err(Refusal::TooMany);
    }
    if has_bad_index(facets, vertices as usize) {
        return Err(Refusal::BadIndex);
    }
    let need = work_need(vertices as usize, facets.len() / 3, 0, 0);
    if lent < need {
        return Err(Refusal::NoWorkRoom(need));
    }
    Ok(())
}

// How many open edges, components and irregular edges there are.
#[derive(Clone, Copy)]
pub struct Found {
    pub edges: usize,
    pub components: usize,
    pub irregular: usize,
}

// Writes all three lists to the work room. With n sides and m vertices stand there: the edge table, later the records that are sorted (4n words); irregular edges
// (n); ends of open edges (2n); the table of components (2n + m); degrees of vertices (m); open edges by components (2n); the components (2n).
fn stage(vertices: usize, facets: &[u32], work: &mut [u64]) -> Found
    requires { Ready vertices facets.now (length work.old) }
    ensures { Listed vertices facets.now work.old work.new result.edges result.components result.irregular }
{
    let n = facets.len();
    sort_sides(facets, work);
    let irregular = irregular_edges(facets, work, 4 * n);
    let edges = keep_open(work, n);
    zero_part(work, 2 * edges, 2 * (n - edges));
    let components = group_edges(work, edges, n, vertices, 5 * n);
    Found {
        edges,
        components,
        irregular,
    }
}

// Every length is known before the first output is written.
// Stays (C interface), point 5: the three outputs of list_lent and boundary_components too, which C lends one by one.
fn list_checked(
    vertices: usize,
    facets: &[u32],
    work: &mut [u64],
    out_edges: &mut [u64],
    out_components: &mut [u64],
    out_irregular: &mut [u64],
) -> Reply<3>
    requires { Ready vertices facets.now (length work.old) }
    ensures { Answer []
        (boundary_outputs (threes facets.now) out_edges.old out_edges.new out_components.old out_components.new
        out_irregular.old out_irregular.new) (documented_reply result) }
{
    let found = stage(vertices, facets, work);
    let edges = 2 * found.edges;
    let components = 2 * found.components;
    let irregular = 2 * found.irregular;
    if out_edges.len() < edges {
        return Err(Refusal::NoRoom(edges));
    }
    if out_components.len() < components {
        return Err(Refusal::NoRoom(components));
    }
    if out_irregular.len() < irregular {
        return Err(Refusal::NoRoom(irregular));
    }
    let n = facets.len();
    let listed = 9 * n + 2 * vertices;
    let counted = 11 * n + 2 * vertices;
    copy_front(&work[listed..listed + edges], out_edges);
    copy_front(&work[counted..counted + components], out_components);
    copy_front(&work[4 * n..4 * n + irregular], out_irregular);
    Ok([edges, components, irregular])
}

// The tests, and the lists where they pass. The work room is left as it came out.
fn list_lent(
    vertices: u64,
    facets: &[u32],
    ceiling: u64,
    work: &mut [u64],
    out_edges: &mut [u64],
    out_components: &mut [u64],
    out_irregular: &mut [u64],
) -> Reply<3>
    ensures { Answer (boundary_tests vertices facets.now (limits ceiling (length work.old)))
        (boundary_outputs (threes facets.now) out_edges.old out_edges.new out_components.old out_components.new
        out_irregular.old out_irregular.new) (documented_reply result) }
{
    check(vertices, facets, ceiling, work.len())?;
    list_checked(
        vertices as usize,
        facets,
        work,
        out_edges,
        out_components,
        out_irregular,
    )
}

// Lists the open edges of facets by components, which of these are rings, and the edges that no closed surface has.
pub fn boundary_components(
    vertices: u64,
    facets: &[u32],
    ceiling: u64,
    work: &mut [u64],
    out_edges: &mut [u64],
    out_components: &mut [u64],
    out_irregular: &mut [u64],
) -> Reply<3>
    ensures { Answered (boundary_tests vertices facets.now (limits ceiling (length work.old)))
        (boundary_outputs (threes facets.now) out_edges.old out_edges.new out_components.old out_components.new
        out_irregular.old out_irregular.new) work.old work.new (documented_reply result) }
{
    let reply = list_lent(
        vertices,
        facets,
        ceiling,
        work,
        out_edges,
        out_components,
        out_irregular,
    );
    zero(work);
    reply
}
