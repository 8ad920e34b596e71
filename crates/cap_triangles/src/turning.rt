// Stays (C interface), point 6: the turned triangles stand at places of the one room that C lends, and there is no heap.
// boundary_closure.rs, `orient_face_triangle`: the supplied triangles turned outward.
ghost use Rattle.std.specs.Prelude.{◌≡◌, ◌+◌, ◌*◌, ◌/◌, ◌<◌, length, get_or};
ghost use Rattle.lists.specs.Regions.{Above};
ghost use Rattle.geometry.specs.Boxes.{face_of};
ghost use Rattle.geometry.specs.Triangles.{tri};
ghost use Rattle.geometry.specs.Numbers.{candidates_of};
ghost use Rattle.candidate_pool.specs.Standing.{pool_at};
ghost use Rattle.cap_triangles.specs.Selection.{caps_of};
ghost use Rattle.cap_triangles.specs.Listed.{bad_cap_place};
ghost use Rattle.cap_triangles.specs.Room.{turned_at, Supplied, TurnedReady};
ghost use Rattle.cap_triangles.specs.Steps.{Standing, area_of, turned_by};

use crate::listed::{supplied, supplied_face};
use crate::room::{CapRoom, SuppliedCaps};
use box_faces::faces::{ccw_is_outward, project};
use box_faces::uv::Uv;
use candidate_pool::pool::point_of;
use geometry::face::BoxFace;
use geometry::numbers::CandidateVertexId;
use geometry::triangle::CandidateTriangle;

// "signed projected area", twice
#[tactic(auto, unfolding(crate::specs::Steps::area_of))]
fn signed_area2(a: Uv, b: Uv, c: Uv) -> f64
    ensures { result ≡ area_of (tri a b c) }
{
    (b.u - a.u) * (c.v - a.v) - (b.v - a.v) * (c.u - a.u)
}

fn orient_face_triangle(w: &[u64], face: BoxFace, t: CandidateTriangle) -> CandidateTriangle
    requires { Standing w.now (candidates_of t) }
    ensures { candidates_of result ≡ turned_by w.now (face_of face) (candidates_of t) }
{
    let a = project(face, point_of(w, t.a));
    let b = project(face, point_of(w, t.b));
    let c = project(face, point_of(w, t.c));
    if (signed_area2(a, b, c) > 0.0) == ccw_is_outward(face) {
        t
    } else {
        t.reversed()
    }
}

// Of each triangle three candidates.
pub fn turn_caps(w: &mut [u64], caps: SuppliedCaps<'_>)
    requires supplied { Supplied caps.n caps.nf caps.list.now w.old }
    requires good { bad_cap_place (pool_at caps.n w.old) (caps_of caps.list.now) ≡ length (caps_of caps.list.now) }
    ensures { Above (turned_at caps.entry.n caps.entry.nf) w.old w.new × TurnedReady caps.entry.n caps.entry.nf caps.entry.list.now w.new }
{
    let nc = caps.list.len() / 4;
    let turned = CapRoom {
        n: caps.n,
        nf: caps.nf,
        nc,
        k: caps.k,
    }
    .turned_at();
    for i in 0..nc {
        let t = orient_face_triangle(w, supplied_face(caps.list, i), supplied(caps.list, i));
        w[turned + 3 * i] = t.a.0 as u64;
        w[turned + 3 * i + 1] = t.b.0 as u64;
        w[turned + 3 * i + 2] = t.c.0 as u64;
    }
}

// The triangle i, turned.
pub fn turned_cap(w: &[u64], room: CapRoom, i: usize) -> CandidateTriangle
    requires { turned_at room.n room.nf + 3 * i + 2 < length w.now }
    ensures { candidates_of result ≡ tri (get_or w.now (turned_at room.n room.nf + 3 * i) 0) (get_or w.now (turned_at room.n room.nf + 3 * i + 1) 0)
        (get_or w.now (turned_at room.n room.nf + 3 * i + 2) 0) }
{
    let at = room.turned_at() + 3 * i;
    CandidateTriangle {
        a: CandidateVertexId(w[at] as usize),
        b: CandidateVertexId(w[at + 1] as usize),
        c: CandidateVertexId(w[at + 2] as usize),
    }
}
