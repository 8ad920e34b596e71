// boundary_closure.rs: the sides of a face, and where a candidate stands along one.
ghost use Rattle.std.specs.Prelude.{◌≡◌};
ghost use Rattle.root.specs.Doubles.{◌⊘◌};
ghost use Rattle.geometry.specs.Boxes.{face_of};
ghost use Rattle.box_faces.specs.Sides.{face_sides, between_ends, along_side, on_side};

use crate::faces::uv_axes;
use crate::uv::{Side, Uv};
use geometry::aabb::AABB;
use geometry::face::BoxFace;
use rounding::{abs, clamp01, max, within};

// `face_boundary_sides`, round the face.
#[tactic(auto, unfolding(crate::specs::Sides::face_sides))]
pub fn face_boundary_sides(face: BoxFace, extents: AABB) -> [Side; 4]
    ensures { result ≡ face_sides extents (face_of face) }
{
    let axes = uv_axes(face);
    let u = axes.0.index();
    let v = axes.1.index();
    let low = Uv {
        u: extents.min_corner[u],
        v: extents.min_corner[v],
    };
    let high = Uv {
        u: extents.max_corner[u],
        v: extents.max_corner[v],
    };
    let right = Uv {
        u: high.u,
        v: low.v,
    };
    let left = Uv {
        u: low.u,
        v: high.v,
    };
    [
        Side {
            start: low,
            end: right,
        },
        Side {
            start: right,
            end: high,
        },
        Side {
            start: high,
            end: left,
        },
        Side {
            start: left,
            end: low,
        },
    ]
}

// The fraction t where it is no further than `slack` beyond the ends, 0 and 1.
#[tactic(auto, unfolding(crate::specs::Sides::between_ends))]
fn between_ends(t: f64, slack: f64) -> Option<f64>
    ensures { result ≡ between_ends t slack }
{
    if t >= -slack && t <= 1.0 + slack {
        Some(clamp01(t))
    } else {
        None
    }
}

// For a side of the extent d, and a point `from` its start along the side and w away from its line. The quotient may be infinite: then the answer is
// `None`.
#[tactic(auto, unfolding(crate::specs::Sides::along_side))]
fn along_side(d: f64, from: f64, w: f64, eps: f64) -> Option<f64>
    ensures { result ≡ along_side eps d (from ⊘ d) w }
{
    if within(w, eps) {
        let longest = max(abs(d), eps);
        between_ends(from / d, eps / longest)
    } else {
        None
    }
}

// `candidate_on_face_side`, of a candidate at p
#[tactic(auto, unfolding(crate::specs::Sides::on_side))]
pub fn candidate_on_face_side(side: Side, p: Uv, eps: f64) -> Option<f64>
    ensures { result ≡ on_side eps side p }
{
    let du = side.end.u - side.start.u;
    let dv = side.end.v - side.start.v;
    let u = p.u - side.start.u;
    let v = p.v - side.start.v;
    if abs(dv) <= abs(du) {
        along_side(du, u, v, eps)
    } else {
        along_side(dv, v, u, eps)
    }
}
