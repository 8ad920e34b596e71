// The operation clip (document 01, module 3; `clip_mesh_to_aabb` of aabb_clipping.rs). `bbox_eps` of that file stands in the crate tolerance;
// `facet_fully_inside_aabb` is left out, since no operation uses it.
#![tactic(auto)]

ghost use Rattle.std.specs.Prelude.{◌≡◌, true, [], ◌/◌, length};
ghost use Rattle.input_tests.specs.Front.{limits};
ghost use Rattle.refusals.specs.Refusals.{documented_reply, first_refusal};
ghost use Rattle.refusals.specs.Answers.{mesh_outputs, Answer, Answered};
ghost use Rattle.aabb_clipping.specs.Clip.{clip_tests, clip_result};
ghost use Rattle.aabb_clipping.specs.Steps.{Fits};

use aabb_facets::marks::wholly_inside;
use aabb_facets::passes::Admitted;
use aabb_planes::clip::Clip;
use geometry::mesh::MeshLists;
use input_tests::boxes::{box_in_range, is_bad_box};
use input_tests::{all_in_range, check_lists, eps_in_range, work_need};
use refusals::refusal::Refusal;
use refusals::reply::Reply;
use words::zero;

// Tests 1, 2, 3, 4, 5 and 7, in that order.
fn check(mesh: MeshLists<'_>, clip: Clip, ceiling: u64, lent: usize) -> Result<(), Refusal>
    ensures { result ≡ first_refusal (clip_tests mesh.entry.vertices.now mesh.entry.facets.now clip (limits ceiling lent)) }
{
    check_lists(ceiling, mesh, 0)?;
    if !all_in_range(mesh.vertices) || !box_in_range(clip.extents) || !eps_in_range(clip.eps) {
        return Err(Refusal::BadNumber);
    }
    if is_bad_box(clip.extents) {
        return Err(Refusal::BadBox);
    }
    let need = work_need(mesh.vertices.len() / 3, mesh.facets.len() / 3, 0, 0);
    if lent < need {
        return Err(Refusal::NoWorkRoom(need));
    }
    Ok(())
}

// Whether the outputs hold whatever the facets could give, so that 12 cannot arise: 28 corners and 26 facets of each facet, or of a mesh
// wholly inside no more than it has.
fn is_ample(admitted: Admitted<'_>, vertex_room: usize, facet_room: usize) -> bool
    ensures { result ≡ true → Fits (clip_result admitted.entry.mesh.vertices.now admitted.entry.mesh.facets.now admitted.entry.clip) vertex_room facet_room }
{
    let n = admitted.mesh.facets.len() / 3;
    if 84 * n <= vertex_room && 78 * n <= facet_room {
        return true;
    }
    if vertex_room < admitted.mesh.vertices.len() || facet_room < admitted.mesh.facets.len() {
        return false;
    }
    wholly_inside(admitted.mesh.vertices, admitted.clip)
}

// Two passes: the first counts, into no room, and the second writes.
// Stays (plainer), point 5: the outputs are two parameters; a struct of two `&mut` needs a clause more for each in each function, that it is still the caller's.
fn clip_counted(
    admitted: Admitted<'_>,
    ids: &mut [u64],
    out_vertices: &mut [f64],
    out_facets: &mut [u32],
) -> Reply<2>
    requires { length ids.old ≡ length admitted.mesh.vertices.now / 3 }
    ensures { Answer []
        (mesh_outputs (clip_result admitted.entry.mesh.vertices.now admitted.entry.mesh.facets.now admitted.entry.clip) out_vertices.old out_vertices.new out_facets.old
        out_facets.new) (documented_reply result) }
{
    let need = admitted.run_pass(ids, &mut out_vertices[..0], &mut out_facets[..0]);
    let need_vertices = 3 * need.vertices;
    let need_facets = need.numbers;
    if out_vertices.len() < need_vertices {
        return Err(Refusal::NoRoom(need_vertices));
    }
    if out_facets.len() < need_facets {
        return Err(Refusal::NoRoom(need_facets));
    }
    admitted.run_pass(ids, out_vertices, out_facets);
    Ok([need_vertices, need_facets])
}

// One pass where the outputs are ample.
fn clip_checked(
    admitted: Admitted<'_>,
    ids: &mut [u64],
    out_vertices: &mut [f64],
    out_facets: &mut [u32],
) -> Reply<2>
    requires { length ids.old ≡ length admitted.mesh.vertices.now / 3 }
    ensures { Answer []
        (mesh_outputs (clip_result admitted.entry.mesh.vertices.now admitted.entry.mesh.facets.now admitted.entry.clip) out_vertices.old out_vertices.new out_facets.old
        out_facets.new) (documented_reply result) }
{
    if !is_ample(admitted, out_vertices.len(), out_facets.len()) {
        return clip_counted(admitted, ids, out_vertices, out_facets);
    }
    let made = admitted.run_pass(ids, out_vertices, out_facets);
    Ok([3 * made.vertices, made.numbers])
}

// The tests, and the mesh where they pass. The work room is left as it came out.
fn clip_lent(
    mesh: MeshLists<'_>,
    clip: Clip,
    ceiling: u64,
    work: &mut [u64],
    out_vertices: &mut [f64],
    out_facets: &mut [u32],
) -> Reply<2>
    ensures { Answer (clip_tests mesh.entry.vertices.now mesh.entry.facets.now clip (limits ceiling (length work.old)))
        (mesh_outputs (clip_result mesh.entry.vertices.now mesh.entry.facets.now clip) out_vertices.old out_vertices.new out_facets.old
        out_facets.new) (documented_reply result) }
{
    check(mesh, clip, ceiling, work.len())?;
    let n = mesh.vertices.len() / 3;
    let admitted = Admitted { mesh, clip };
    clip_checked(admitted, &mut work[..n], out_vertices, out_facets)
}

pub fn clip_mesh_to_aabb(
    mesh: MeshLists<'_>,
    clip: Clip,
    ceiling: u64,
    work: &mut [u64],
    out_vertices: &mut [f64],
    out_facets: &mut [u32],
) -> Reply<2>
    ensures { Answered (clip_tests mesh.entry.vertices.now mesh.entry.facets.now clip (limits ceiling (length work.old)))
        (mesh_outputs (clip_result mesh.entry.vertices.now mesh.entry.facets.now clip) out_vertices.old out_vertices.new out_facets.old
        out_facets.new) work.old work.new (documented_reply result) }
{
    let reply = clip_lent(mesh, clip, ceiling, work, out_vertices, out_facets);
    zero(work);
    reply
}
