// The length of a segment from its extents: the double nearest the exact root of the exact sum of their squares, the even one where two are equally near
// (document 02, E3). No floating-point operation is made: of the two bit patterns the sum of the squares is a whole number, and the digits of its root are drawn
// as on paper, like those of `sqrt` (crate root).
#![tactic(auto)]

ghost use Rattle.std.specs.Prelude.{◌≡◌, ◌+◌, ◌*◌, ◌^◌, ◌≤◌, ◌<◌};
ghost use Rattle.root.specs.Bounds.{Within};
ghost use Rattle.root.specs.Patterns.{pattern_units};
ghost use Rattle.hypot.specs.Length.{Measured};
ghost use Rattle.hypot.specs.Placing.{Parts, Squared, Divided, Summed, LengthAt, Placed, RootOf};

use root::{Drawing, LEAD, SIGN};

// the halves of a word of 54 digits are multiples of 2^27
const HALF: u64 = 1 << 27;

// and the words of a wide number of 2^54
const WORD: u64 = 1 << 54;

// high * 2^54 + low
#[derive(Clone, Copy)]
struct Wide {
    high: u64,
    low: u64,
}

// A wide number and a part of one.
#[derive(Clone, Copy)]
struct Parted {
    whole: Wide,
    part: u64,
}

impl Wide {
    // The square of v, from the halves of v.
    #[tactic(auto, using(crate::proofs::Products::square_of))]
    fn square(v: u64) -> Wide
        requires { v < 2 ^ 54 }
        ensures { Squared v result.high result.low }
    {
        let a: u64 = v / HALF;
        let b: u64 = v % HALF;
        let cross: u64 = 2 * (a * b);
        let low: u64 = cross % HALF * HALF + b * b;
        Wide {
            high: a * a + cross / HALF + low / WORD,
            low: low % WORD,
        }
    }

    // The number divided by 4^d, and the part that is left. 4^d divides 2^54.
    #[tactic(auto, using(crate::proofs::Products::shifted, crate::proofs::Products::four_pos, crate::proofs::Products::divided))]
    fn divided(self, d: u64) -> Parted
        requires { (self.high < 2 ^ 54) × (self.low < 2 ^ 54) × (d < 27) }
        ensures { Divided self.high self.low d result.whole.high result.whole.low result.part }
    {
        let p: u64 = 1 << (2 * d);
        Parted {
            whole: Wide {
                high: self.high / p,
                low: self.high % p * (WORD / p) + self.low / p,
            },
            part: self.low % p,
        }
    }
}

// A root in half units of the last place, and whether it is more than that.
#[derive(Clone, Copy)]
struct Halves {
    root: u64,
    more: bool,
}

impl Halves {
    // The pattern of the root in half units of 2^j, rounded to a whole one: up from a half if there is more, and where there is no more, to the even one.
    // A carry goes into the exponent's field.
    fn placed(self, j: u64) -> u64
        requires { (j < 2045) × (self.root < 2 ^ 54) × (0 < j → 2 ^ 53 ≤ self.root) }
        ensures { Placed j self.root self.more result }
    {
        let q: u64 = self.root;
        let p: u64 = j * LEAD + q / 2;
        if q % 2 == 0 {
            return p;
        }
        if self.more { p + 1 } else { p + p % 2 }
    }

    // The same for a root that may have a digit too many.
    fn settled(self, j: u64) -> u64
        requires { (j < 2044) × (self.root < 2 ^ 55) × (0 < j → 2 ^ 53 ≤ self.root) }
        ensures { Placed j self.root self.more result }
    {
        if self.root < WORD {
            return self.placed(j);
        }
        let half = Halves {
            root: self.root / 2,
            more: self.more | (self.root % 2 == 1),
        };
        half.placed(j + 1)
    }
}

// The digits of two patterns whose exponents are d apart: the square of l counts 4^d times less.
#[derive(Clone, Copy)]
struct Squares {
    m: u64,
    l: u64,
    d: u64,
    ghost small: { (m < 2 ^ 53) × (l < 2 ^ 53) × (d < 27) },
}

impl Squares {
    // Four times m * m + l * l / 4^d.
    fn sum(self) -> Parted
        ensures { Summed self.m self.l self.d result.whole.high result.whole.low result.part }
    {
        let a: Wide = Wide::square(2 * self.m);
        let b: Wide = Wide::square(2 * self.l);
        let c: Parted = b.divided(self.d);
        let low: u64 = a.low + c.whole.low;
        Parted {
            whole: Wide {
                high: a.high + c.whole.high + low / WORD,
                low: low % WORD,
            },
            part: c.part,
        }
    }

    // Twice the root of m * m + l * l / 4^d: 28 and 27 digits are drawn, and there is more if something is left.
    fn root(self) -> Halves
        ensures { RootOf self.m self.l self.d result.root result.more }
    {
        let t: Parted = self.sum();
        let upper: Drawing = Drawing { root: 0, rest: 0 }.bring_down(t.whole.high, 28);
        let lower: Drawing = upper.bring_down(t.whole.low, 27);
        Halves {
            root: lower.root,
            more: (lower.rest != 0) | (t.part != 0),
        }
    }
}

// The exponent of a pattern with no sign: a field of 0 counts as a field of 1.
#[tactic(auto, using(crate::proofs::Sums::parts_small, crate::proofs::Sums::parts_large))]
fn exponent(a: u64) -> u64
    requires { a < 2045 * 2 ^ 52 }
    ensures { Parts a result × (result < 2044) }
{
    let e: u64 = a / LEAD;
    if e == 0 { 0 } else { e - 1 }
}

// The pattern of the length, where b is at most a. Where the exponents are 27 or more apart, b is too small to count.
// Stays (plainer): no conversion; it is a length, from two patterns to a pattern, so that its proof is of whole numbers alone.
#[tactic(auto, using(crate::proofs::Sums::order))]
fn hypot_bits(a: u64, b: u64) -> u64
    requires { (b ≤ a) × (a < 2045 * 2 ^ 52) }
    ensures { LengthAt (4 * (pattern_units a * pattern_units a + pattern_units b * pattern_units b)) result }
{
    let j: u64 = exponent(a);
    let k: u64 = exponent(b);
    let d: u64 = j - k;
    if 26 < d {
        return a;
    }
    let squares = Squares {
        m: a - j * LEAD,
        l: b - k * LEAD,
        d,
    };
    squares.root().settled(j)
}

// The length of a segment with the extents x and y.
// Stays (proof): document 02, E3, asks for this very length, proved; the library's `hypot` is the system's, with no contract.
#[tactic(auto, using(root::proofs::Patterns::no_nan, crate::proofs::Computed::hypot_asks))]
pub fn hypot(x: f64, y: f64) -> f64
    requires { Within (2 ^ 1021) x × Within (2 ^ 1021) y }
    ensures { Measured x y result }
{
    let a: u64 = f64::to_bits(x) % SIGN;
    let b: u64 = f64::to_bits(y) % SIGN;
    f64::from_bits(hypot_bits(a.max(b), a.min(b)))
}
