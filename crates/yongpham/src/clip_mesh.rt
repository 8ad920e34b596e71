ghost use Rattle.std.specs.Prelude.{length};
ghost use Rattle.refusals.specs.Answers.{mesh_outputs, Called};
ghost use Rattle.input_tests.specs.Front.{limits};
ghost use Rattle.aabb_clipping.specs.Clip.{clip_asked, clip_tests, clip_result};
ghost use Rattle.yongpham.specs.Calls.{box_of};

use crate::boxes::box_of;
use aabb_clipping::clip_mesh_to_aabb;
use aabb_planes::clip::Clip;
use geometry::mesh::MeshLists;
use refusals::report::report_reply;

// `clip_mesh_to_aabb`: values[0] and values[1] get the lengths written.
// Stays (C interface), point 5: the parameters are those of include/yongpham.h; replay calls this crate, since no crate can use a static library (yongpham_c).
pub fn yongpham_clip(
    vertices: &[f64],
    facets: &[u32],
    min_x: f64,
    min_y: f64,
    min_z: f64,
    max_x: f64,
    max_y: f64,
    max_z: f64,
    eps: f64,
    ceiling: u64,
    work: &mut [u64],
    out_vertices: &mut [f64],
    out_facets: &mut [u32],
    values: &mut [u64; 4],
) -> u32
    ensures { Called
        (clip_tests vertices.now facets.now (clip_asked (box_of min_x min_y min_z max_x max_y max_z) eps)
        (limits ceiling (length work.old)))
        (mesh_outputs (clip_result vertices.now facets.now (clip_asked (box_of min_x min_y min_z max_x max_y max_z) eps)) out_vertices.old
        out_vertices.new out_facets.old out_facets.new) work.old work.new result values.new }
{
    let extents = box_of(min_x, min_y, min_z, max_x, max_y, max_z);
    let reply = clip_mesh_to_aabb(
        MeshLists { vertices, facets },
        Clip { extents, eps },
        ceiling,
        work,
        out_vertices,
        out_facets,
    );
    report_reply(values, reply)
}
