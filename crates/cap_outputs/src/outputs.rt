// Stays (C interface), point 6: facets left, their marks and the new vertices stand at places of the one room that C lends, and there is no heap.
// Test 12, and a mesh in the outputs if there is room.
ghost use Rattle.std.specs.Prelude.{◌≡◌, [], ◌∷◌, map, ℕ, ◌+◌, ◌*◌, ◌/◌, ◌%◌, ◌≤◌, ◌<◌, length, get_or};
ghost use Rattle.std.proofs.lemmas.List.Edits.{sets};
ghost use Rattle.geometry.specs.Triangles.{reversed, threes, flat};
ghost use Rattle.geometry.specs.Meshes.{coordinates, mesh_of};
ghost use Rattle.candidate_pool.specs.Offsets.{entry_at};
ghost use Rattle.refusals.specs.Refusals.{documented_reply};
ghost use Rattle.refusals.specs.Answers.{mesh_outputs, Answer};
ghost use Rattle.candidate_pool.specs.Standing.{PointStored};
ghost use Rattle.cap_closing.specs.Closing.{own_facets};
ghost use Rattle.cap_outputs.specs.Written.{points_in, cap_words, all_cap_words, closed_mesh_in, Deliverable};

use candidate_pool::pool::point_of;
use cap_closing::closing::CapCount;
use cap_triangles::room::{CapRoom, SuppliedCaps};
use geometry::mesh::MeshLists;
use geometry::numbers::CandidateVertexId;
use geometry::vertices::write_point;
use refusals::refusal::Refusal;
use refusals::reply::Reply;
use words::{copy_front, write_three};

// The mesh as it came.
pub fn deliver_mesh(
    mesh: MeshLists<'_>,
    out_vertices: &mut [f64],
    out_facets: &mut [u32],
) -> Reply<2>
    requires { (length mesh.vertices.now % 3 ≡ 0) × (length mesh.facets.now % 3 ≡ 0) }
    ensures { Answer []
        (mesh_outputs (mesh_of mesh.entry.vertices.now mesh.entry.facets.now) out_vertices.old out_vertices.new out_facets.old
        out_facets.new) (documented_reply result) }
{
    if out_vertices.len() < mesh.vertices.len() {
        return Err(Refusal::NoRoom(mesh.vertices.len()));
    }
    if out_facets.len() < mesh.facets.len() {
        return Err(Refusal::NoRoom(mesh.facets.len()));
    }
    copy_front(mesh.vertices, out_vertices);
    copy_front(mesh.facets, out_facets);
    Ok([mesh.vertices.len(), mesh.facets.len()])
}

// Stays (plainer): `write_fresh` and `write_caps` have nothing in common but the loop: one writes points at even steps, one goes on behind what was written.
// The points of the candidates that became new vertices, from `at` on.
fn write_fresh(w: &[u64], fresh: &[u64], out: &mut [f64], at: usize)
    requires fits { at + 3 * length fresh.now ≤ length out.old }
    requires by_index { (i : ℕ) → i < length fresh.now → PointStored w.now (entry_at (get_or fresh.now i 0)) × (entry_at (get_or fresh.now i 0) + 2 < length w.now) }
    ensures { out.new ≡ sets out.old at (coordinates (points_in w.now fresh.now)) }
{
    for i in 0..fresh.len() {
        let c = fresh[i] as usize;
        write_point(out, at + 3 * i, point_of(w, CandidateVertexId(c)));
    }
}

// "Negative swaps the mesh facets' last two corners"
fn write_reversed(facets: &[u32], out: &mut [u32])
    requires { (length facets.now % 3 ≡ 0) × (length facets.now ≤ length out.old) }
    ensures { out.new ≡ sets out.old 0 (flat (map reversed (threes facets.now))) }
{
    for i in 0..facets.len() / 3 {
        write_three(
            out,
            3 * i,
            facets[3 * i],
            facets[3 * i + 2],
            facets[3 * i + 1],
        );
    }
}

// Stays (plainer): `positive` tells the two modes that close apart; `BoundaryClosure` has a third, which never comes here.
fn write_own(facets: &[u32], positive: bool, out: &mut [u32])
    requires { (length facets.now % 3 ≡ 0) × (length facets.now ≤ length out.old) }
    ensures { out.new ≡ sets out.old 0 (flat (own_facets positive (threes facets.now))) }
{
    if positive {
        copy_front(facets, out);
    } else {
        write_reversed(facets, out);
    }
}

// A facet left, if its word says that it is the first of its three corners; where the next goes.
fn write_cap(w: &[u64], facet: usize, first: usize, out: &mut [u32], at: usize) -> usize
    requires facet_in_bounds { (facet + 2 < length w.now) × (first < length w.now) }
    requires facet_bound { (get_or w.now facet 0 < 2097152) × (get_or w.now (facet + 1) 0 < 2097152) × (get_or w.now (facet + 2) 0 < 2097152) }
    requires first_in_bounds { at + length (cap_words w.now facet first) ≤ length out.old }
    ensures { (result ≡ at + length (cap_words w.now facet first)) × (out.new ≡ sets out.old at (cap_words w.now facet first)) }
{
    let is_first = w[first] == 1;
    if is_first {
        write_three(
            out,
            at,
            w[facet] as u32,
            w[facet + 1] as u32,
            w[facet + 2] as u32,
        );
        at + 3
    } else {
        at
    }
}

// Those of the facets left that are the first of their three corners, from `at` on.
fn write_caps(w: &[u64], facets: usize, firsts: usize, left: usize, out: &mut [u32], at: usize)
    requires left_in_bounds { (facets + 3 * left ≤ length w.now) × (firsts + left ≤ length w.now) }
    requires by_index { (j : ℕ) → j < 3 * left → get_or w.now (facets + j) 0 < 2097152 }
    requires left_in_bounds_2 { at + length (all_cap_words w.now facets firsts left) ≤ length out.old }
    ensures { out.new ≡ sets out.old at (all_cap_words w.now facets firsts left) }
{
    let mut o = at;
    for i in 0..left {
        o = write_cap(w, facets + 3 * i, firsts + i, out, o);
    }
}

// Stays (plainer): `positive`, as in `write_own`.
// Every length is known before the first output is written.
pub fn deliver_closed(
    w: &[u64],
    mesh: MeshLists<'_>,
    caps: SuppliedCaps<'_>,
    positive: bool,
    made: CapCount,
    out_vertices: &mut [f64],
    out_facets: &mut [u32],
) -> Reply<2>
    requires { Deliverable mesh.vertices.now mesh.facets.now caps.n (length caps.list.now / 4) made.left made.caps w.now }
    ensures { Answer []
        (mesh_outputs (closed_mesh_in mesh.entry.vertices.now mesh.entry.facets.now caps.entry.n (length caps.entry.list.now / 4) positive made.left w.now)
        out_vertices.old out_vertices.new out_facets.old out_facets.new) (documented_reply result) }
{
    let nf = mesh.facets.len() / 3;
    let nv = mesh.vertices.len() / 3;
    let room = CapRoom {
        n: caps.n,
        nf,
        nc: caps.list.len() / 4,
        k: caps.k,
    };
    let count = w[room.vertices_at()] as usize;
    let v = 3 * count;
    let f = mesh.facets.len() + 3 * made.caps;
    if out_vertices.len() < v {
        return Err(Refusal::NoRoom(v));
    }
    if out_facets.len() < f {
        return Err(Refusal::NoRoom(f));
    }
    copy_front(mesh.vertices, out_vertices);
    let entered = count - nv;
    let fresh = room.fresh_at();
    write_fresh(
        w,
        &w[fresh..fresh + entered],
        out_vertices,
        mesh.vertices.len(),
    );
    write_own(mesh.facets, positive, out_facets);
    write_caps(
        w,
        room.left_at(),
        room.firsts_at(),
        made.left,
        out_facets,
        mesh.facets.len(),
    );
    Ok([v, f])
}
