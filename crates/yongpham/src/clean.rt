ghost use Rattle.std.specs.Prelude.{length};
ghost use Rattle.refusals.specs.Answers.{mesh_outputs, Called};
ghost use Rattle.input_tests.specs.Front.{limits};
ghost use Rattle.mesh_cleanup.specs.Clean.{clean_asked, clean_tests, clean_result, KeptRule};

use geometry::mesh::MeshLists;
use mesh_cleanup::clean_mesh;
use refusals::report::report_reply;

// `clean_mesh`: values[0] and values[1] get the lengths written.
// Stays (C interface), point 5: the parameters are those of include/yongpham.h; replay calls this crate, since no crate can use a static library (yongpham_c).
pub fn yongpham_clean(
    vertices: &[f64],
    facets: &[u32],
    eps: f64,
    ceiling: u64,
    work: &mut [u64],
    out_vertices: &mut [f64],
    out_facets: &mut [u32],
    values: &mut [u64; 4],
) -> u32
    ensures answered { Called (clean_tests vertices.now facets.now (clean_asked eps) (limits ceiling (length work.old)))
        (mesh_outputs (clean_result vertices.now facets.now (clean_asked eps)) out_vertices.old out_vertices.new out_facets.old
        out_facets.new) work.old work.new result values.new }
    ensures rule { KeptRule vertices.now facets.now (clean_asked eps) }
{
    let reply = clean_mesh(
        MeshLists { vertices, facets },
        eps,
        ceiling,
        work,
        out_vertices,
        out_facets,
    );
    report_reply(values, reply)
}
