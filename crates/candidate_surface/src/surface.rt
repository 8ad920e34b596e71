// The candidates in the work room, step by step, as candidates and caps both make them: the open edges' table, their ends, and then corner vertices and grids.
// Stays (C interface), point 6: n says where tables stand in the lent room, since C lends one buffer and there is no heap; k counts its open edges.
ghost use Rattle.std.specs.Prelude.{◌≡◌, false, ◌+◌, ◌*◌, ◌/◌, ◌%◌, ◌≤◌, ◌<◌, length};
ghost use Rattle.geometry.specs.Meshes.{mesh_of};
ghost use Rattle.input_tests.specs.Front.{grid_too_fine};
ghost use Rattle.candidate_pool.specs.Offsets.{room_end};
ghost use Rattle.candidate_pool.specs.Pool.{by_key};
ghost use Rattle.candidate_edges.specs.Surface.{edge_surface};
ghost use Rattle.candidate_edges.specs.Steps.{MeshFits, VerticesIn};
ghost use Rattle.candidate_surface.specs.Asked.{one_resolution};
ghost use Rattle.candidate_surface.specs.Steps.{Sound, most_candidates, Tabled, Surfaced, Completed};

use crate::asked::Asked;
use aabb_planes::clip::Clip;
use candidate_edges::corners::enter_corners;
use candidate_edges::open::enter_edges;
use candidate_grids::grids::enter_grids;
use candidate_pool::pool::clear_pool;
use candidate_pool::room::Room;
use geometry::mesh::MeshLists;

// Each vertex and each grid point is at most one candidate.
pub fn most_candidates(vertices: &[f64], asked: Asked) -> usize
    requires { (length vertices.now / 3 ≤ 65536) × (grid_too_fine asked.extents asked.eps (one_resolution asked.resolution) ≡ false) }
    ensures { result ≡ most_candidates vertices.now asked }
{
    vertices.len() / 3 + asked.cuts().size()
}

// How many open edges there are, whose records then stand in the room.
// Stays (plainer), point 5: that the list is whole is asked where its facets are read; test 1 has shown it for all of them.
pub fn table_edges(facets: &[u32], w: &mut [u64], n: usize) -> usize
    requires facets_len { length facets.now % 3 ≡ 0 }
    requires n_bound { (n < 268435456) × (length facets.now / 3 < 268435456) }
    requires facets_in_bounds { room_end n (length facets.now / 3) ≤ length w.old }
    ensures { Tabled facets.now n result w.new }
{
    let nf = facets.len() / 3;
    let table = Room { n, nf }.edge_table_at();
    edges::open_edges(facets, &mut w[table..table + 12 * nf])
}

// How many faces the k open edges are listed with in all. Their ends are then the candidates.
pub fn enter_surface(mesh: MeshLists<'_>, clip: Clip, w: &mut [u64], n: usize, k: usize) -> usize
    requires mesh_fits { MeshFits mesh.vertices.now mesh.facets.now n w.old }
    requires tabled { Tabled mesh.facets.now n k w.old }
    requires vertices_in { VerticesIn mesh.vertices.now }
    ensures { Surfaced mesh.entry.vertices.now mesh.entry.facets.now clip.extents clip.eps n k w.new ×
        (result ≡ length (edge_surface clip.extents clip.eps (by_key clip.eps) (mesh_of mesh.entry.vertices.now mesh.entry.facets.now)).edges) }
{
    let nf = mesh.facets.len() / 3;
    clear_pool(w, Room { n, nf });
    enter_edges(w, mesh, n, k, clip)
}

// Corner vertices and grids, once the ends of the k open edges are in.
// Stays (plainer), point 5: that n is the most candidates is asked by the three steps that come after it is computed; with the mesh and k as one value that value would be made in two crates.
pub fn complete(mesh: MeshLists<'_>, asked: Asked, w: &mut [u64], n: usize, k: usize)
    requires sound { Sound mesh.vertices.now mesh.facets.now asked }
    requires mesh_fits { MeshFits mesh.vertices.now mesh.facets.now n w.old × (n ≡ most_candidates mesh.vertices.now asked) × (k ≤ length mesh.facets.now) }
    requires surfaced { Surfaced mesh.vertices.now mesh.facets.now asked.extents asked.eps n k w.old }
    ensures { Completed mesh.entry.vertices.now mesh.entry.facets.now asked n k w.new }
{
    let nf = mesh.facets.len() / 3;
    let room = Room { n, nf };
    enter_corners(w, mesh.vertices, room, asked.clip());
    let skip = asked.resolution * 1.0e-9;
    enter_grids(w, room, k, asked.cuts(), [skip; 3]);
}
