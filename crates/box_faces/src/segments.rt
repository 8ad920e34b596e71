// boundary_closure.rs, `point_on_segment2`. The length of a segment does not depend on the point, so its bound is computed once for each segment.
ghost use Rattle.std.specs.Prelude.{◌≡◌, ◌^◌};
ghost use Rattle.root.specs.Bounds.{Within};
ghost use Rattle.root.specs.Doubles.{◌⊖◌};
ghost use Rattle.box_faces.specs.Segments.{uv_difference, segment_length, segment_bound, on_segment_by};

use crate::uv::Uv;
use hypot::hypot;
use rounding::{abs, max};

pub fn sub(p: Uv, q: Uv) -> Uv
    ensures { result ≡ uv_difference p q }
{
    Uv {
        u: p.u - q.u,
        v: p.v - q.v,
    }
}

// of a segment with the extent d
#[tactic(auto, unfolding(crate::specs::Segments::segment_length))]
pub fn segment_length(d: Uv) -> f64
    requires { Within (2 ^ 1021) d.u × Within (2 ^ 1021) d.v }
    ensures { result ≡ segment_length d }
{
    hypot(d.u, d.v)
}

#[tactic(auto, unfolding(crate::specs::Segments::segment_bound))]
pub fn segment_bound(tolerance: f64, a: Uv, b: Uv) -> f64
    requires { Within (2 ^ 1021) (b.u ⊖ a.u) × Within (2 ^ 1021) (b.v ⊖ a.v) }
    ensures { result ≡ segment_bound tolerance a b }
{
    let length = segment_length(sub(b, a));
    tolerance * max(length, 1.0)
}

// `point_on_segment2`
#[tactic(auto, unfolding(crate::specs::Segments::on_segment_by))]
pub fn point_on_segment2(p: Uv, a: Uv, b: Uv, bound: f64, tolerance: f64) -> bool
    ensures { result ≡ on_segment_by bound tolerance p a b }
{
    let ab = sub(b, a);
    let ap = sub(p, a);
    let bp = sub(p, b);
    let cross = ab.u * ap.v - ab.v * ap.u;
    !(bound < abs(cross)) && ap.u * bp.u + ap.v * bp.v <= tolerance * tolerance
}
