ghost use Rattle.std.specs.Prelude.{length};
ghost use Rattle.geometry.specs.Triangles.{threes};
ghost use Rattle.refusals.specs.Answers.{Called};
ghost use Rattle.input_tests.specs.Front.{limits};
ghost use Rattle.boundary_components.specs.Boundary.{boundary_tests, boundary_outputs};

use boundary_components::boundary_components;
use refusals::report::report_reply;

// `boundary_components`: values[0] to values[2] get the lengths written.
pub fn yongpham_boundary_components(
    vertex_count: u64,
    facets: &[u32],
    ceiling: u64,
    work: &mut [u64],
    out_edges: &mut [u64],
    out_components: &mut [u64],
    out_irregular: &mut [u64],
    values: &mut [u64; 4],
) -> u32
    ensures { Called (boundary_tests vertex_count facets.now (limits ceiling (length work.old)))
        (boundary_outputs (threes facets.now) out_edges.old out_edges.new out_components.old out_components.new
        out_irregular.old out_irregular.new) work.old work.new result values.new }
{
    let reply = boundary_components(
        vertex_count,
        facets,
        ceiling,
        work,
        out_edges,
        out_components,
        out_irregular,
    );
    report_reply(values, reply)
}
