// Rounding to whole numbers (document 01, module 1), the key of a cell (module 4), the segments of an axis (module 5), and Rust's comparisons
// of doubles. A function that needs a number's bits tests for a NaN first, which has none of its own.
#![tactic(auto)]

ghost use Rattle.std.specs.Prelude.{◌≡◌, not, ◌*◌, ◌^◌, ◌<◌, ◌≤◌, T};
ghost use Rattle.std.specs.Float.Ieee.{is_nan};
ghost use Rattle.root.specs.Doubles as doubles;
ghost use Rattle.rounding.specs.Rounding as defined;
ghost use Rattle.rounding.specs.Ordering.{order_key};
ghost use Rattle.rounding.specs.Whole.{WholeOf};

use root::{LEAD, SIGN};
use std::num::saturating_f64_to_u64;

// the pattern of 2^63, from which on no double is an `i64`
const WIDE: u64 = 1086 * LEAD;

// The whole number nearest to the double with the pattern b, a half going up, for a double with no sign and below 2^63.
fn whole_of_bits(b: u64) -> u64
    requires { b < 1086 * 2 ^ 52 }
    ensures { WholeOf b result }
{
    let e: u64 = b / LEAD;
    let q: u64 = LEAD + b % LEAD;
    if e < 1022 {
        // below a half
        0
    } else if e < 1075 {
        // the double is q / w
        let w: u64 = 1 << (1075 - e);
        (2 * q + w) >> (1076 - e)
    } else {
        q << (e - 1075)
    }
}

// x to a whole number, a half going away from zero: Rust's `round`.
// Stays (plainer): one call of the library, under the name of its definition.
#[tactic(auto, using(crate::proofs::Rounding::away_is))]
pub fn round(x: f64) -> f64
    ensures { result ≡ defined.half_away x }
{
    x.round()
}

// Rust's `round() as i64`: beyond the range the nearest end of it, and 0 of a NaN.
// Stays (speed): a cell key by `saturating_f64_to_i64(x.round())` takes twice the time.
pub fn rounded(x: f64) -> i64
    ensures { result ≡ defined.rounded x }
{
    if x != x {
        return 0;
    }
    let b: u64 = f64::to_bits(x);
    let c: u64 = b % SIGN;
    if WIDE <= c {
        return if b < SIGN { i64::MAX } else { i64::MIN };
    }
    let n: u64 = whole_of_bits(c);
    if b < SIGN { n as i64 } else { 0 - (n as i64) }
}

// The cell of a coordinate: `q` in the Rust's `quantized_point_key` (mesh_cleanup.rs, boundary_closure.rs). The quotient may be infinite.
#[tactic(auto, unfolding(crate::specs::Rounding::key))]
pub fn quantized_key(x: f64, eps: f64) -> i64
    ensures { result ≡ defined.key eps x }
{
    rounded(x / max(eps, 1.0e-12))
}

// Whether a key is beyond 2^62, either way. 2^62 itself is not.
#[tactic(auto, unfolding(crate::specs::Rounding::beyond))]
pub fn key_beyond(k: i64) -> bool
    ensures { result ≡ defined.beyond k }
{
    k.unsigned_abs() > 4611686018427387904
}

// A key as a word without a sign: 2^63 more than it, so that words stand in the order of their keys.
// Stays (plainer): one call of the library, under the name of its definition, which many contracts cite.
#[tactic(auto, using(crate::proofs::Keys::above_least))]
pub fn key_word(k: i64) -> u64
    ensures { result ≡ defined.key_word k }
{
    k.abs_diff(i64::MIN)
}

// Rust's `max`, of numbers that are no NaN.
// Stays (plainer): the library's `max` tests for a NaN too and may answer a zero of the other sign, so that it is not `larger`.
#[tactic(auto, unfolding(root::specs::Doubles::larger))]
pub fn max(x: f64, y: f64) -> f64
    ensures { result ≡ doubles.larger x y }
{
    if x < y { y } else { x }
}

// Rust's `min`, of numbers that are no NaN.
// Stays (plainer): as for `max`.
#[tactic(auto, unfolding(root::specs::Doubles::smaller))]
pub fn min(x: f64, y: f64) -> f64
    ensures { result ≡ doubles.smaller x y }
{
    if y < x { y } else { x }
}

// Rust's `abs`: the sign bit cleared.
// Stays (plainer): one call of the library, under the name of its definition, which many contracts cite.
#[tactic(auto, using(crate::proofs::Rounding::abs_is))]
pub fn abs(x: f64) -> f64
    ensures { result ≡ doubles.magnitude x }
{
    x.abs()
}

// Rust's `abs() <= eps`, without the branch on a sign that is as good as random.
#[tactic(auto, using(root::proofs::Doubles::within_both))]
pub fn within(d: f64, eps: f64) -> bool
    ensures { result ≡ doubles.within eps d }
{
    d <= eps && -d <= eps
}

// Rust's `clamp(0.0, 1.0)`, which keeps -0.0.
#[tactic(auto, unfolding(root::specs::Doubles::clamped))]
pub fn clamp01(t: f64) -> f64
    ensures { result ≡ doubles.clamped t }
{
    t.clamp(0.0, 1.0)
}

// A whole number in the order of `total_cmp`.
#[tactic(auto, unfolding(crate::specs::Ordering::order_key))]
pub fn order_key(x: f64) -> u64
    requires { T (not (is_nan x)) }
    ensures { result ≡ order_key x }
{
    let b: u64 = f64::to_bits(x);
    if b < SIGN { SIGN + b } else { !b }
}

// How many segments an axis needs, or none where it needs more than 256: `axis_grid_coordinates` of boundary_closure.rs, for a spacing of
// max(resolution, eps). The quotient may be infinite.
#[tactic(auto, unfolding(crate::specs::Rounding::segments_over, crate::specs::Rounding::few_segments), using(crate::proofs::Segments::segments_laws))]
pub fn axis_segments(length: f64, spacing: f64) -> Option<u64>
    ensures { result ≡ defined.few_segments length spacing }
{
    let q: f64 = length / spacing;
    if 256.0 < q {
        None
    } else if 1.0 < q {
        Some(saturating_f64_to_u64(q.ceil()))
    } else {
        Some(1)
    }
}
