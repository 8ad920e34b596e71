// C2, C8 and C14: the operation clean.
ghost use Rattle.std.specs.Prelude.{◌≡◌};
ghost use Rattle.refusals.specs.Refusals.{documented_reply};
ghost use Rattle.mesh_cleanup.specs.Clean.{clean_asked};
ghost use Rattle.cases.specs.Cleaning.{is_mesh, is_key_range, cleans_to, has_far_key, c2_holds, c8_holds, c14_holds};

use crate::bits::begins_with;
use crate::replies::has_lengths;
use geometry::mesh::MeshLists;
use mesh_cleanup::clean_mesh;
use refusals::refusal::Refusal;
use refusals::reply::Reply;

// 1/1024
const EPS: f64 = 0.0009765625;

// 2^-20
const FINE: f64 = 0.00000095367431640625;

// The reply is a mesh of these lengths, and the outputs begin with it.
#[tactic(auto, unfolding(crate::specs::Cleaning::is_mesh))]
fn is_mesh(reply: Reply<2>, made: MeshLists<'_>, stated: MeshLists<'_>) -> bool
    ensures { result ≡ is_mesh (documented_reply reply) made.entry.vertices.now made.entry.facets.now stated.entry.vertices.now stated.entry.facets.now }
{
    has_lengths(reply, &[stated.vertices.len(), stated.facets.len()])
        && begins_with(made.vertices, stated.vertices)
        && made.facets.starts_with(stated.facets)
}

// 8
// Stays (plainer): the refusal is a pattern here and in `is_too_fine`, and a pattern cannot be handed over.
#[tactic(auto, unfolding(refusals::specs::Refusals::documented_reply, refusals::specs::Refusals::documented))]
fn is_key_range(reply: Reply<2>) -> bool
    ensures { result ≡ is_key_range (documented_reply reply) }
{
    matches!(reply, Err(Refusal::KeyRange))
}

fn cleans_to(mesh: MeshLists<'_>, eps: f64, stated: MeshLists<'_>) -> bool
    ensures { result ≡ cleans_to mesh.entry.vertices.now mesh.entry.facets.now (clean_asked eps) stated.entry.vertices.now stated.entry.facets.now }
{
    let mut work = [0u64; 2048];
    let mut out_vertices = [0.0; 12];
    let mut out_facets = [0u32; 6];
    let reply = clean_mesh(
        mesh,
        eps,
        65536,
        &mut work,
        &mut out_vertices,
        &mut out_facets,
    );
    let made = MeshLists {
        vertices: &out_vertices,
        facets: &out_facets,
    };
    is_mesh(reply, made, stated)
}

fn has_far_key(mesh: MeshLists<'_>, eps: f64) -> bool
    ensures { result ≡ has_far_key mesh.entry.vertices.now mesh.entry.facets.now (clean_asked eps) }
{
    let mut work = [0u64; 2048];
    let mut out_vertices = [0.0; 12];
    let mut out_facets = [0u32; 6];
    is_key_range(clean_mesh(
        mesh,
        eps,
        65536,
        &mut work,
        &mut out_vertices,
        &mut out_facets,
    ))
}

// "one vertex, the first"
pub fn c2() -> bool
    ensures { result ≡ c2_holds }
{
    let points = [0.0, 0.0, 0.0, EPS, 0.0, 0.0];
    let first = [0.0, 0.0, 0.0];
    let none = [0u32; 0];
    let mesh = MeshLists {
        vertices: &points,
        facets: &none,
    };
    let stated = MeshLists {
        vertices: &first,
        facets: &none,
    };
    cleans_to(mesh, EPS, stated)
}

// "both stay, four vertices"
pub fn c8() -> bool
    ensures { result ≡ c8_holds }
{
    let square = [0.0, 0.0, 0.0, 1.0, 0.0, 0.0, 1.0, 1.0, 0.0, 0.0, 1.0, 0.0];
    let facets = [0, 1, 2, 0, 2, 3];
    let mesh = MeshLists {
        vertices: &square,
        facets: &facets,
    };
    cleans_to(mesh, FINE, mesh)
}

// "accepted", and "refusal 8"
pub fn c14() -> bool
    ensures { result ≡ c14_holds }
{
    let near = [4611686.0, 0.0, 0.0];
    let far = [4611687.0, 0.0, 0.0];
    let none = [0u32; 0];
    let mesh = MeshLists {
        vertices: &near,
        facets: &none,
    };
    let too_far = MeshLists {
        vertices: &far,
        facets: &none,
    };
    cleans_to(mesh, 0.0, mesh) && has_far_key(too_far, 0.0)
}
