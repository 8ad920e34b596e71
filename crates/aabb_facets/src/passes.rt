// One pass over the facets: it counts, and writes as far as the outputs have room.
ghost use Rattle.std.specs.Prelude.{◌≡◌, false, [], ◌*◌, ◌/◌, ◌≤◌, length};
ghost use Rattle.input_tests.specs.Front.{bad_index};
ghost use Rattle.geometry.specs.Meshes.{mesh_of};
ghost use Rattle.aabb_facets.specs.Clipped.{clip_facets, clipped};
ghost use Rattle.aabb_facets.specs.Rooms.{room, mark_words, shows, Ran};

use crate::facets::{Counts, clip_facet};
use crate::marks::mark_all;
use aabb_planes::clip::Clip;
use aabb_polygons::polygon::Polygon;
use geometry::mesh::MeshLists;

// A mesh that tests 1 to 3 have let pass, and the box to clip it to: few enough vertices and facets, and the facets' numbers are numbers of vertices.
#[derive(Clone, Copy)]
pub struct Admitted<'a> {
    pub mesh: MeshLists<'a>,
    pub clip: Clip,
    pub ghost few: { (length mesh.vertices.now / 3 ≤ 65536) × (length mesh.facets.now / 3 ≤ 65536) },
    pub ghost below: { bad_index (length mesh.vertices.now / 3) mesh.facets.now ≡ false },
}

impl<'a> Admitted<'a> {
    // From marks that no facet has changed yet.
    // Stays (plainer), point 5: the outputs are two parameters; a struct of two `&mut` needs a clause more for each in each function, that it is still the caller's.
    fn clip_pass(self, ids: &mut [u64], out_vertices: &mut [f64], out_facets: &mut [u32]) -> Counts
        requires { ids.old ≡ mark_words self.mesh.vertices.now self.clip.extents self.clip.eps (length self.mesh.vertices.now / 3) [] }
        ensures out_facets_after { room result ids.new out_vertices.new out_facets.new ≡ shows self.entry.mesh.vertices.now self.entry.clip.extents self.entry.clip.eps
            (length self.entry.mesh.vertices.now / 3) (clip_facets self.entry.clip.extents self.entry.clip.eps (mesh_of self.entry.mesh.vertices.now self.entry.mesh.facets.now)) out_vertices.old
            out_facets.old }
        ensures vertices_bound { (result.vertices ≤ 28 * (length self.entry.mesh.facets.now / 3)) × (result.numbers ≤ 78 * (length self.entry.mesh.facets.now / 3)) }
    {
        let n = self.mesh.facets.len() / 3;
        let mut polygon = Polygon::new();
        let mut spare = Polygon::new();
        let mut at = Counts {
            vertices: 0,
            numbers: 0,
        };
        for i in 0..n {
            at = clip_facet(
                self.mesh,
                i,
                self.clip,
                &mut polygon,
                &mut spare,
                ids,
                out_vertices,
                out_facets,
                at,
            );
        }
        at
    }

    // The same with words of work room whatever they hold.
    pub fn run_pass(
        self,
        ids: &mut [u64],
        out_vertices: &mut [f64],
        out_facets: &mut [u32],
    ) -> Counts
        requires { length ids.old ≡ length self.mesh.vertices.now / 3 }
        ensures ran { Ran (clipped self.entry.clip.extents self.entry.clip.eps (mesh_of self.entry.mesh.vertices.now self.entry.mesh.facets.now)) result out_vertices.old
            out_vertices.new out_facets.old out_facets.new }
        ensures vertices_bound { (result.vertices ≤ 28 * (length self.entry.mesh.facets.now / 3)) × (result.numbers ≤ 78 * (length self.entry.mesh.facets.now / 3)) }
    {
        mark_all(self.mesh.vertices, self.clip, ids);
        self.clip_pass(ids, out_vertices, out_facets)
    }
}
