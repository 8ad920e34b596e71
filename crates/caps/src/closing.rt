// Tests 10 and 11, and the mesh closed by a list that passed them.
// Stays (C interface), point 6: n, nf and k say where tables stand in the lent room, since C lends one buffer and there is no heap.
ghost use Rattle.std.specs.Prelude.{[], ◌*◌, ◌/◌, ◌≤◌, length};
ghost use Rattle.candidate_pool.specs.Offsets.{open_edges_at};
ghost use Rattle.refusals.specs.Refusals.{documented_reply};
ghost use Rattle.refusals.specs.Answers.{mesh_outputs, Answer};
ghost use Rattle.candidate_pool.specs.Standing.{pool_at, EdgesHeld};
ghost use Rattle.cap_triangles.specs.Room.{Supplied};
ghost use Rattle.caps.specs.Steps.{CapsChecked, closed_mesh, Closable};

use cap_closing::closing::close_caps;
use cap_outputs::outputs::deliver_closed;
use cap_pairs::missing::missing_place;
use cap_pairs::noting::note_faces;
use cap_pairs::pairs::number_pairs;
use cap_selection::seeds::select_caps;
use cap_triangles::listed::bad_cap_place;
use cap_triangles::room::SuppliedCaps;
use cap_triangles::turning::turn_caps;
use geometry::mesh::MeshLists;
use refusals::refusal::Refusal;
use refusals::reply::Reply;

// For the k open edges. What the selection needs of the list is then in the room.
pub fn check_caps(w: &mut [u64], caps: SuppliedCaps<'_>) -> Result<(), Refusal>
    requires supplied { Supplied caps.n caps.nf caps.list.now w.old }
    requires edges_held { EdgesHeld (pool_at caps.n w.old) w.old (open_edges_at caps.n caps.nf) caps.k × (caps.k ≤ 3 * caps.nf) }
    ensures { CapsChecked caps.entry.n caps.entry.nf caps.entry.k caps.entry.list.now result w.old w.new }
{
    if let Some(place) = bad_cap_place(w, caps) {
        return Err(Refusal::BadCap(place));
    }
    turn_caps(w, caps);
    number_pairs(w, caps);
    note_faces(w, caps);
    match missing_place(w, caps) {
        Some(place) => Err(Refusal::MissingEdge(place)),
        None => Ok(()),
    }
}

// The closed mesh of a list that passed, with test 12.
// Stays (plainer): `positive` is handed on to the two functions that turn triangles; the mode has a third value, which has returned before.
pub fn close_mesh(
    w: &mut [u64],
    mesh: MeshLists<'_>,
    cap_list: &[u64],
    n: usize,
    k: usize,
    positive: bool,
    out_vertices: &mut [f64],
    out_facets: &mut [u32],
) -> Reply<2>
    requires { Closable mesh.vertices.now mesh.facets.now cap_list.now n k w.old }
    ensures { Answer []
        (mesh_outputs (closed_mesh mesh.entry.vertices.now mesh.entry.facets.now cap_list.now n k positive w.old) out_vertices.old
        out_vertices.new out_facets.old out_facets.new) (documented_reply result) }
{
    let nf = mesh.facets.len() / 3;
    let caps = SuppliedCaps {
        n,
        nf,
        k,
        list: cap_list,
    };
    select_caps(w, caps);
    let made = close_caps(w, mesh.vertices, caps, positive);
    deliver_closed(w, mesh, caps, positive, made, out_vertices, out_facets)
}
