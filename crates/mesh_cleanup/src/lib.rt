// The operation clean (document 01, module 4; `clean_mesh` of mesh_cleanup.rs).
#![tactic(auto)]

ghost use Rattle.std.specs.Prelude.{◌≡◌, [], map, ℕ, ◌+◌, ◌*◌, ◌/◌, ◌≤◌, ◌<◌, length, get_or};
ghost use Rattle.lists.specs.Regions.{view};
ghost use Rattle.words.specs.Overlay.{overlay};
ghost use Rattle.geometry.specs.Meshes.{coordinates, vertex_of};
ghost use Rattle.refusals.specs.Refusals.{documented_reply, first_refusal};
ghost use Rattle.refusals.specs.Answers.{mesh_outputs, Answer};
ghost use Rattle.input_tests.specs.Front.{limits};
ghost use Rattle.mesh_cleanup.specs.Clean.{clean_asked, clean_tests, clean_result, Cleaned};
ghost use Rattle.mesh_cleanup.specs.Steps.{CleanReady, Staging};

use geometry::mesh::MeshLists;
use geometry::vertices::{vertex_at, vertex_in, write_point};
use input_tests::grid::has_far_key;
use input_tests::{all_in_range, check_lists, eps_in_range, work_need};
use mesh_compact::compact::{Staged, remove_small_disconnected_components};
use mesh_filter::corners::WeldedAt;
use mesh_filter::filter::Filter;
use mesh_weld::weld::weld;
use refusals::refusal::Refusal;
use refusals::reply::Reply;
use words::zero;

// `MIN_CONNECTED_COMPONENT_FACETS`
const MIN_COMPONENT_FACETS: u64 = 2;

// What is to be cleaned, and by which eps.
#[derive(Clone, Copy)]
struct Cleaning<'a> {
    mesh: MeshLists<'a>,
    eps: f64,
}

impl Cleaning<'_> {
    // Tests 1, 2, 3, 4, 7 and 8, in that order.
    fn check(&self, ceiling: u64, lent: usize) -> Result<(), Refusal>
        ensures { result ≡ first_refusal (clean_tests self.now.mesh.vertices.now self.now.mesh.facets.now (clean_asked self.now.eps) (limits ceiling lent)) }
    {
        check_lists(ceiling, self.mesh, 0)?;
        if !all_in_range(self.mesh.vertices) || !eps_in_range(self.eps) {
            return Err(Refusal::BadNumber);
        }
        let need = work_need(
            self.mesh.vertices.len() / 3,
            self.mesh.facets.len() / 3,
            0,
            0,
        );
        if lent < need {
            return Err(Refusal::NoWorkRoom(need));
        }
        if has_far_key(self.mesh.vertices, self.eps) {
            return Err(Refusal::KeyRange);
        }
        Ok(())
    }

    // The cleaned mesh in the work room: 14 words a vertex for welding, 14 a facet for the filter, then 2 a vertex and 8 a facet for components and numbers.
    fn stage(&self, work: &mut [u64]) -> Staged
        requires { CleanReady self.now.mesh.vertices.now self.now.mesh.facets.now (clean_asked self.now.eps) (length work.old) }
        ensures { Staging self.now.mesh.vertices.now (clean_result self.now.mesh.vertices.now self.now.mesh.facets.now (clean_asked self.now.eps)) result work.new }
    {
        let nv = self.mesh.vertices.len() / 3;
        let nf = self.mesh.facets.len() / 3;
        let count = weld(work, self.mesh.vertices, nv, self.eps);
        let filter = Filter {
            welded: WeldedAt {
                kept: 9 * nv,
                count,
                numbers: 10 * nv,
            },
            mesh: self.mesh,
            at: 14 * nv,
            n: nf,
            eps: self.eps,
        };
        let passed = filter.filter(work);
        remove_small_disconnected_components(
            work,
            9 * nv,
            count,
            14 * nv + 11 * nf,
            passed,
            14 * nv + 14 * nf,
            MIN_COMPONENT_FACETS,
        )
    }

    // Every length is known before the first output is written.
    // Stays (plainer), point 5: the outputs are two parameters; a struct of two `&mut` needs a clause more for each in each function, that it is still the caller's.
    fn clean_checked(
        &self,
        work: &mut [u64],
        out_vertices: &mut [f64],
        out_facets: &mut [u32],
    ) -> Reply<2>
        requires { CleanReady self.now.mesh.vertices.now self.now.mesh.facets.now (clean_asked self.now.eps) (length work.old) }
        ensures { Answer []
            (mesh_outputs (clean_result self.now.mesh.vertices.now self.now.mesh.facets.now (clean_asked self.now.eps)) out_vertices.old out_vertices.new out_facets.old
            out_facets.new) (documented_reply result) }
    {
        let s = self.stage(work);
        let need = 3 * s.vertices;
        if out_vertices.len() < need {
            return Err(Refusal::NoRoom(need));
        }
        if out_facets.len() < s.numbers {
            return Err(Refusal::NoRoom(s.numbers));
        }
        let order_end = s.order + s.vertices;
        write_vertices(&work[s.order..order_end], self.mesh.vertices, out_vertices);
        let corners_end = s.corners + s.numbers;
        write_numbers(&work[s.corners..corners_end], out_facets);
        Ok([need, s.numbers])
    }

    // The tests, and the mesh where they pass. The work room is left as it came out.
    fn clean_lent(
        &self,
        ceiling: u64,
        work: &mut [u64],
        out_vertices: &mut [f64],
        out_facets: &mut [u32],
    ) -> Reply<2>
        ensures { Answer (clean_tests self.now.mesh.vertices.now self.now.mesh.facets.now (clean_asked self.now.eps) (limits ceiling (length work.old)))
            (mesh_outputs (clean_result self.now.mesh.vertices.now self.now.mesh.facets.now (clean_asked self.now.eps)) out_vertices.old out_vertices.new out_facets.old
            out_facets.new) (documented_reply result) }
    {
        self.check(ceiling, work.len())?;
        self.clean_checked(work, out_vertices, out_facets)
    }
}

// The coordinates of the vertices whose numbers stand in `order`.
fn write_vertices(order: &[u64], vertices: &[f64], out: &mut [f64])
    requires room { 3 * length order.now ≤ length out.old }
    requires numbers { (j : ℕ) → j < length order.now → get_or order.now j 0 < length vertices.now / 3 }
    ensures { out.new ≡ overlay (coordinates (map (vertex_of vertices.now) order.now)) out.old }
{
    for k in 0..order.len() {
        let v = vertex_in(order, k);
        write_point(out, 3 * k, vertex_at(vertices, v));
    }
}

// Stays (plainer): beside `write_vertices`; one function for both would be passed the closure that is its whole body.
fn write_numbers(numbers: &[u64], out: &mut [u32])
    requires room { length numbers.now ≤ length out.old }
    requires small { (j : ℕ) → j < length numbers.now → get_or numbers.now j 0 < 196609 }
    ensures { out.new ≡ overlay numbers.now out.old }
{
    for (i, number) in numbers.iter().enumerate() {
        out[i] = *number as u32;
    }
}

// Cleans a mesh. The work room is cleared once, at the end: each table clears what it needs before.
pub fn clean_mesh(
    mesh: MeshLists<'_>,
    eps: f64,
    ceiling: u64,
    work: &mut [u64],
    out_vertices: &mut [f64],
    out_facets: &mut [u32],
) -> Reply<2>
    ensures { Cleaned mesh.entry.vertices.now mesh.entry.facets.now (clean_asked eps) ceiling result work.old work.new out_vertices.old
        out_vertices.new out_facets.old out_facets.new }
{
    let cleaning = Cleaning { mesh, eps };
    let reply = cleaning.clean_lent(ceiling, work, out_vertices, out_facets);
    zero(work);
    reply
}
