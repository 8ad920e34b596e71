ghost use Rattle.std.specs.Prelude.{length};
ghost use Rattle.refusals.specs.Answers.{Called};
ghost use Rattle.input_tests.specs.Front.{limits};
ghost use Rattle.candidate_surface.specs.Asked.{asked};
ghost use Rattle.candidate_outputs.specs.Outputs.{candidate_outputs};
ghost use Rattle.boundary_closure.specs.Operation.{candidates_tests, candidates_result};
ghost use Rattle.yongpham.specs.Calls.{box_of};

use crate::boxes::box_of;
use boundary_closure::cap_candidates;
use candidate_surface::asked::Asked;
use geometry::mesh::MeshLists;
use refusals::report::report_reply;

// `cap_candidates`: the four values get the lengths written.
// Stays (C interface), point 5: the parameters are those of include/yongpham.h; replay calls this crate, since no crate can use a static library (yongpham_c).
pub fn yongpham_candidates(
    vertices: &[f64],
    facets: &[u32],
    min_x: f64,
    min_y: f64,
    min_z: f64,
    max_x: f64,
    max_y: f64,
    max_z: f64,
    eps: f64,
    resolution: f64,
    ceiling: u64,
    work: &mut [u64],
    candidates: &mut [u64],
    face_lists: &mut [u64],
    constraints: &mut [u64],
    open_edges: &mut [u64],
    values: &mut [u64; 4],
) -> u32
    ensures { Called (candidates_tests vertices.now facets.now (asked (box_of min_x min_y min_z max_x max_y max_z) eps resolution)
        (limits ceiling (length work.old))) (candidate_outputs (candidates_result vertices.now facets.now
        (asked (box_of min_x min_y min_z max_x max_y max_z) eps resolution)) candidates.old candidates.new face_lists.old
        face_lists.new constraints.old constraints.new open_edges.old open_edges.new) work.old
        work.new result values.new }
{
    let extents = box_of(min_x, min_y, min_z, max_x, max_y, max_z);
    let asked = Asked {
        extents,
        eps,
        resolution,
    };
    let reply = cap_candidates(
        MeshLists { vertices, facets },
        asked,
        ceiling,
        work,
        candidates,
        face_lists,
        constraints,
        open_edges,
    );
    report_reply(values, reply)
}
