// The operation caps: the order of its steps. boundary_closure.rs, `cap_mesh_to_aabb`.
// Stays (C interface), point 6: n says where tables stand in the lent room, since C lends one buffer and there is no heap; k counts its open edges.
ghost use Rattle.std.specs.Prelude.{◌≡◌, ◌++◌, ◌+◌, ◌*◌, ◌/◌, ◌%◌, ◌≤◌, length};
ghost use Rattle.refusals.specs.Refusals.{documented_reply, unless};
ghost use Rattle.refusals.specs.Answers.{mesh_outputs, Answer};
ghost use Rattle.candidate_edges.specs.Steps.{MeshFits};
ghost use Rattle.input_tests.specs.Front.{limits};
ghost use Rattle.candidate_surface.specs.Candidates.{no_two_ends};
ghost use Rattle.closure_tests.specs.Tests.{edge_tests};
ghost use Rattle.candidate_surface.specs.Steps.{Sound, most_candidates, Tabled};
ghost use Rattle.caps.specs.Operation.{cap_tests, caps_tests, caps_result, Capped};
ghost use Rattle.caps.specs.Steps.{Listable, surface_mesh};

use crate::closing::{check_caps, close_mesh};
use crate::mode::{BoundaryClosure, is_positive, leaves_open};
use candidate_surface::asked::Asked;
use candidate_surface::surface::{complete, enter_surface, most_candidates, table_edges};
use cap_outputs::outputs::deliver_mesh;
use cap_triangles::room::SuppliedCaps;
use closure_tests::tests::{check_closure, check_edges};
use geometry::mesh::MeshLists;
use refusals::reply::Reply;
use words::zero;

// All that follows test 9, for a mesh with k open edges. "if no open edge keeps two ends", the mesh comes back as it is.
// Stays (plainer), point 5: the outputs are two parameters; a struct of two `&mut` needs a clause more for each in each function, that it is still the caller's.
fn cap_edges(
    mesh: MeshLists<'_>,
    cap_list: &[u64],
    asked: Asked,
    mode: BoundaryClosure,
    w: &mut [u64],
    n: usize,
    k: usize,
    out_vertices: &mut [f64],
    out_facets: &mut [u32],
) -> Reply<2>
    requires sound { Sound mesh.vertices.now mesh.facets.now asked }
    requires mesh_fits { MeshFits mesh.vertices.now mesh.facets.now n w.old × (n ≡ most_candidates mesh.vertices.now asked) }
    requires listable { Listable mesh.vertices.now mesh.facets.now cap_list.now n w.old }
    requires tabled { Tabled mesh.facets.now n k w.old }
    ensures { Answer
        (unless (no_two_ends mesh.entry.vertices.now mesh.entry.facets.now asked)
        (cap_tests mesh.entry.vertices.now mesh.entry.facets.now asked cap_list.now))
        (mesh_outputs (surface_mesh mesh.entry.vertices.now mesh.entry.facets.now cap_list.now asked mode) out_vertices.old
        out_vertices.new out_facets.old out_facets.new) (documented_reply result) }
{
    let listed = enter_surface(mesh, asked.clip(), w, n, k);
    if listed == 0 {
        return deliver_mesh(mesh, out_vertices, out_facets);
    }
    complete(mesh, asked, w, n, k);
    let caps = SuppliedCaps {
        n,
        nf: mesh.facets.len() / 3,
        k,
        list: cap_list,
    };
    check_caps(w, caps)?;
    close_mesh(
        w,
        mesh,
        cap_list,
        n,
        k,
        is_positive(mode),
        out_vertices,
        out_facets,
    )
}

// Tests 8 and 9 and all that follows, for a mesh that has passed those before.
fn make_caps(
    mesh: MeshLists<'_>,
    cap_list: &[u64],
    asked: Asked,
    mode: BoundaryClosure,
    w: &mut [u64],
    out_vertices: &mut [f64],
    out_facets: &mut [u32],
) -> Reply<2>
    requires sound { Sound mesh.vertices.now mesh.facets.now asked }
    requires listable { Listable mesh.vertices.now mesh.facets.now cap_list.now (most_candidates mesh.vertices.now asked) w.old }
    ensures { Answer
        (edge_tests mesh.entry.vertices.now mesh.entry.facets.now asked ++ unless
        (no_two_ends mesh.entry.vertices.now mesh.entry.facets.now asked)
        (cap_tests mesh.entry.vertices.now mesh.entry.facets.now asked cap_list.now))
        (mesh_outputs (surface_mesh mesh.entry.vertices.now mesh.entry.facets.now cap_list.now asked mode) out_vertices.old
        out_vertices.new out_facets.old out_facets.new) (documented_reply result) }
{
    let n = most_candidates(mesh.vertices, asked);
    let k = table_edges(mesh.facets, w, n);
    check_edges(mesh, asked, w, n, k)?;
    cap_edges(
        mesh,
        cap_list,
        asked,
        mode,
        w,
        n,
        k,
        out_vertices,
        out_facets,
    )
}

// Every test, and the mesh where they pass. The work room is left as it came out.
fn caps_lent(
    mesh: MeshLists<'_>,
    cap_list: &[u64],
    asked: Asked,
    mode: BoundaryClosure,
    ceiling: u64,
    work: &mut [u64],
    out_vertices: &mut [f64],
    out_facets: &mut [u32],
) -> Reply<2>
    ensures { Answer
        (caps_tests mesh.entry.vertices.now mesh.entry.facets.now cap_list.now asked mode (limits ceiling (length work.old)))
        (mesh_outputs (caps_result mesh.entry.vertices.now mesh.entry.facets.now cap_list.now asked mode) out_vertices.old
        out_vertices.new out_facets.old out_facets.new) (documented_reply result) }
{
    check_closure(mesh, cap_list.len(), asked, ceiling, work.len())?;
    if leaves_open(mode) {
        return deliver_mesh(mesh, out_vertices, out_facets);
    }
    if mesh.facets.len() == 0 {
        return deliver_mesh(mesh, out_vertices, out_facets);
    }
    make_caps(mesh, cap_list, asked, mode, work, out_vertices, out_facets)
}

// The work room is cleared once, at the end: what was lent may hold anything.
pub fn cap_mesh_to_aabb(
    mesh: MeshLists<'_>,
    cap_list: &[u64],
    asked: Asked,
    mode: BoundaryClosure,
    ceiling: u64,
    work: &mut [u64],
    out_vertices: &mut [f64],
    out_facets: &mut [u32],
) -> Reply<2>
    ensures { Capped mesh.entry.vertices.now mesh.entry.facets.now cap_list.now asked mode ceiling result work.old
        work.new out_vertices.old out_vertices.new out_facets.old out_facets.new }
{
    let reply = caps_lent(
        mesh,
        cap_list,
        asked,
        mode,
        ceiling,
        work,
        out_vertices,
        out_facets,
    );
    zero(work);
    reply
}
