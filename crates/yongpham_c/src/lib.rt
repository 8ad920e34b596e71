// The static library for C: include/yongpham.h says in plain words what each function takes and answers. Each is the function of the same name of
// yongpham, under its contract.
#![tactic(auto)]

ghost use Rattle.aabb_clipping.specs.Clip.{clip_asked, clip_result, clip_tests};
ghost use Rattle.boundary_closure.specs.Operation.{candidates_result, candidates_tests};
ghost use Rattle.boundary_components.specs.Boundary.{boundary_outputs, boundary_tests};
ghost use Rattle.candidate_outputs.specs.Outputs.{candidate_outputs};
ghost use Rattle.candidate_surface.specs.Asked.{asked};
ghost use Rattle.geometry.specs.Triangles.{threes};
ghost use Rattle.input_tests.specs.Front.{limits};
ghost use Rattle.mesh_cleanup.specs.Clean.{KeptRule, clean_asked, clean_result, clean_tests};
ghost use Rattle.refusals.specs.Answers.{Called, mesh_outputs};
ghost use Rattle.refusals.specs.Reports.{Reported};
ghost use Rattle.std.specs.Prelude.{length};
ghost use Rattle.tolerance.specs.Tolerance.{tolerance_reply};
ghost use Rattle.yongpham.specs.Calls.{CapsCalled, box_of};

// `bbox_eps` of the box with these two corners: values[0] gets the bits of the tolerance.
// Stays (C interface): the parameters are those of include/yongpham.h, and the library for C is a crate of its own, which says each function again.
#[unsafe(no_mangle)]
pub extern "C" fn yongpham_tolerance(
    min_x: f64,
    min_y: f64,
    min_z: f64,
    max_x: f64,
    max_y: f64,
    max_z: f64,
    values: &mut [u64; 4],
) -> u32
    ensures { Reported (tolerance_reply (box_of min_x min_y min_z max_x max_y max_z)) result values.new }
{
    yongpham::yongpham_tolerance(min_x, min_y, min_z, max_x, max_y, max_z, values)
}

// `clip_mesh_to_aabb`: values[0] and values[1] get the lengths written.
// Stays (C interface): the parameters are those of include/yongpham.h, and the library for C is a crate of its own, which says each function again.
#[unsafe(no_mangle)]
pub extern "C" fn yongpham_clip(
    vertices: &[f64],
    facets: &[u32],
    min_x: f64,
    min_y: f64,
    min_z: f64,
    max_x: f64,
    max_y: f64,
    max_z: f64,
    eps: f64,
    ceiling: u64,
    work: &mut [u64],
    out_vertices: &mut [f64],
    out_facets: &mut [u32],
    values: &mut [u64; 4],
) -> u32
    ensures { Called
        (clip_tests vertices.now facets.now (clip_asked (box_of min_x min_y min_z max_x max_y max_z) eps)
        (limits ceiling (length work.old)))
        (mesh_outputs (clip_result vertices.now facets.now (clip_asked (box_of min_x min_y min_z max_x max_y max_z) eps)) out_vertices.old
        out_vertices.new out_facets.old out_facets.new) work.old work.new result values.new }
{
    yongpham::yongpham_clip(
        vertices,
        facets,
        min_x,
        min_y,
        min_z,
        max_x,
        max_y,
        max_z,
        eps,
        ceiling,
        work,
        out_vertices,
        out_facets,
        values,
    )
}

// `clean_mesh`: values[0] and values[1] get the lengths written.
// Stays (C interface): the parameters are those of include/yongpham.h, and the library for C is a crate of its own, which says each function again.
#[unsafe(no_mangle)]
pub extern "C" fn yongpham_clean(
    vertices: &[f64],
    facets: &[u32],
    eps: f64,
    ceiling: u64,
    work: &mut [u64],
    out_vertices: &mut [f64],
    out_facets: &mut [u32],
    values: &mut [u64; 4],
) -> u32
    ensures answered { Called (clean_tests vertices.now facets.now (clean_asked eps) (limits ceiling (length work.old)))
        (mesh_outputs (clean_result vertices.now facets.now (clean_asked eps)) out_vertices.old out_vertices.new out_facets.old
        out_facets.new) work.old work.new result values.new }
    ensures rule { KeptRule vertices.now facets.now (clean_asked eps) }
{
    yongpham::yongpham_clean(
        vertices,
        facets,
        eps,
        ceiling,
        work,
        out_vertices,
        out_facets,
        values,
    )
}

// `cap_candidates`: the four values get the lengths written.
// Stays (C interface): the parameters are those of include/yongpham.h, and the library for C is a crate of its own, which says each function again.
#[unsafe(no_mangle)]
pub extern "C" fn yongpham_candidates(
    vertices: &[f64],
    facets: &[u32],
    min_x: f64,
    min_y: f64,
    min_z: f64,
    max_x: f64,
    max_y: f64,
    max_z: f64,
    eps: f64,
    resolution: f64,
    ceiling: u64,
    work: &mut [u64],
    candidates: &mut [u64],
    face_lists: &mut [u64],
    constraints: &mut [u64],
    open_edges: &mut [u64],
    values: &mut [u64; 4],
) -> u32
    ensures { Called (candidates_tests vertices.now facets.now (asked (box_of min_x min_y min_z max_x max_y max_z) eps resolution)
        (limits ceiling (length work.old))) (candidate_outputs (candidates_result vertices.now facets.now
        (asked (box_of min_x min_y min_z max_x max_y max_z) eps resolution)) candidates.old candidates.new face_lists.old
        face_lists.new constraints.old constraints.new open_edges.old open_edges.new) work.old
        work.new result values.new }
{
    yongpham::yongpham_candidates(
        vertices,
        facets,
        min_x,
        min_y,
        min_z,
        max_x,
        max_y,
        max_z,
        eps,
        resolution,
        ceiling,
        work,
        candidates,
        face_lists,
        constraints,
        open_edges,
        values,
    )
}

// `cap_mesh_to_aabb`: values[0] and values[1] get the lengths written. Only numbers come from C, so that a mode is tested here.
// Stays (C interface): the parameters are those of include/yongpham.h, and the library for C is a crate of its own, which says each function again.
#[unsafe(no_mangle)]
pub extern "C" fn yongpham_caps(
    vertices: &[f64],
    facets: &[u32],
    cap_list: &[u64],
    min_x: f64,
    min_y: f64,
    min_z: f64,
    max_x: f64,
    max_y: f64,
    max_z: f64,
    eps: f64,
    resolution: f64,
    mode: u32,
    ceiling: u64,
    work: &mut [u64],
    out_vertices: &mut [f64],
    out_facets: &mut [u32],
    values: &mut [u64; 4],
) -> u32
    ensures { CapsCalled vertices.now facets.now cap_list.now
        (asked (box_of min_x min_y min_z max_x max_y max_z) eps resolution) mode ceiling result values.new work.old work.new
        out_vertices.old out_vertices.new out_facets.old out_facets.new }
{
    yongpham::yongpham_caps(
        vertices,
        facets,
        cap_list,
        min_x,
        min_y,
        min_z,
        max_x,
        max_y,
        max_z,
        eps,
        resolution,
        mode,
        ceiling,
        work,
        out_vertices,
        out_facets,
        values,
    )
}

// `boundary_components`: values[0] to values[2] get the lengths written.
// Stays (C interface): the parameters are those of include/yongpham.h, and the library for C is a crate of its own, which says each function again.
#[unsafe(no_mangle)]
pub extern "C" fn yongpham_boundary_components(
    vertex_count: u64,
    facets: &[u32],
    ceiling: u64,
    work: &mut [u64],
    out_edges: &mut [u64],
    out_components: &mut [u64],
    out_irregular: &mut [u64],
    values: &mut [u64; 4],
) -> u32
    ensures { Called (boundary_tests vertex_count facets.now (limits ceiling (length work.old)))
        (boundary_outputs (threes facets.now) out_edges.old out_edges.new out_components.old out_components.new
        out_irregular.old out_irregular.new) work.old work.new result values.new }
{
    yongpham::yongpham_boundary_components(
        vertex_count,
        facets,
        ceiling,
        work,
        out_edges,
        out_components,
        out_irregular,
        values,
    )
}
