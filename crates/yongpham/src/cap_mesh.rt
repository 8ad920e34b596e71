ghost use Rattle.std.specs.Prelude.{◌≡◌, true, [], ◌∷◌, ◌++◌, length};
ghost use Rattle.refusals.specs.declared.refusal.Refusal.TheVariants.{BadNumber};
ghost use Rattle.refusals.specs.Refusals.{reply_to};
ghost use Rattle.input_tests.specs.Front.{list_tests};
ghost use Rattle.refusals.specs.Reports.{Reported};
ghost use Rattle.candidate_surface.specs.Asked.{asked};
ghost use Rattle.caps.specs.Modes.{mode_from};
ghost use Rattle.yongpham.specs.Calls.{box_of, CapsCalled};

use crate::boxes::box_of;
use candidate_surface::asked::Asked;
use caps::cap_mesh_to_aabb;
use caps::mode::BoundaryClosure;
use geometry::mesh::MeshLists;
use input_tests::check_lists;
use refusals::refusal::Refusal;
use refusals::report::{report_refusal, report_reply};
use words::zero;

// Only numbers come from C, so that a mode is tested here.
// Stays (C interface): what include/yongpham.h hands over is a number.
fn mode_from(mode: u32) -> Result<BoundaryClosure, Refusal>
    ensures { result ≡ mode_from mode }
{
    BoundaryClosure::try_from(mode)
}

// Of a mode that is none: 4, after 1, 2 and 3.
fn refuse_mode(mesh: MeshLists<'_>, caps: usize, ceiling: u64, values: &mut [u64; 4]) -> u32
    ensures { Reported (reply_to (list_tests ceiling mesh.entry.vertices.now mesh.entry.facets.now caps ++ (true, BadNumber) ∷ []) []) result values.new }
{
    match check_lists(ceiling, mesh, caps) {
        Ok(()) => report_refusal(values, Refusal::BadNumber),
        Err(refusal) => report_refusal(values, refusal),
    }
}

// `cap_mesh_to_aabb`: values[0] and values[1] get the lengths written.
// Stays (C interface): parameters, the mode as a number too, are those of include/yongpham.h; replay calls this crate, since no crate can use a static library (yongpham_c).
pub fn yongpham_caps(
    vertices: &[f64],
    facets: &[u32],
    cap_list: &[u64],
    min_x: f64,
    min_y: f64,
    min_z: f64,
    max_x: f64,
    max_y: f64,
    max_z: f64,
    eps: f64,
    resolution: f64,
    mode: u32,
    ceiling: u64,
    work: &mut [u64],
    out_vertices: &mut [f64],
    out_facets: &mut [u32],
    values: &mut [u64; 4],
) -> u32
    ensures { CapsCalled vertices.now facets.now cap_list.now
        (asked (box_of min_x min_y min_z max_x max_y max_z) eps resolution) mode ceiling result values.new work.old work.new
        out_vertices.old out_vertices.new out_facets.old out_facets.new }
{
    let mesh = MeshLists { vertices, facets };
    let Ok(mode) = mode_from(mode) else {
        zero(work);
        return refuse_mode(mesh, cap_list.len(), ceiling, values);
    };
    let extents = box_of(min_x, min_y, min_z, max_x, max_y, max_z);
    let asked = Asked {
        extents,
        eps,
        resolution,
    };
    let reply = cap_mesh_to_aabb(
        mesh,
        cap_list,
        asked,
        mode,
        ceiling,
        work,
        out_vertices,
        out_facets,
    );
    report_reply(values, reply)
}
