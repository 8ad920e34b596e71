// The square root of a double, correctly rounded, from its bit pattern (document 01, module 1). No floating-point operation is made:
// the root's binary digits are drawn one by one, as on paper, by shifts and subtractions.
#![tactic(auto)]

ghost use Rattle.std.specs.Prelude.{◌≡◌, ◌+◌, ◌*◌, ◌^◌, ◌≤◌, ◌<◌, T};
ghost use Rattle.root.specs.Root.{rootable, Rooted};
ghost use Rattle.root.specs.Patterns.{pattern_units};
ghost use Rattle.root.specs.Drawn.{Appended};
ghost use Rattle.root.specs.Digits.{Digits, RootAt};

// 2^52: the weight of a pattern's exponent field, and of the leading digit of a significand
pub const LEAD: u64 = 1 << 52;

// 2^63: the weight of a pattern's sign
pub const SIGN: u64 = 1 << 63;

// What is drawn of a root so far, and what its square leaves of the digits brought down so far: never more than twice the root.
#[derive(Clone, Copy)]
pub struct Drawing {
    pub root: u64,
    pub rest: u64,
    ghost left_over: { rest ≤ 2 * root },
}

impl Drawing {
    // One step of a root on paper, in base two: the next two digits of the number are brought down behind the rest, 4 * root + 1 is tried, taken off if it goes,
    // and the digit is appended to the root. The digits of a root are as good as random, and a branch on them is mispredicted every other time: so the digit is a
    // truth value as a number, and the rest is chosen from two.
    pub fn draw(self, pair: u64) -> Drawing
        requires { (self.root < 2 ^ 61) × (pair < 4) }
        ensures { Appended 1 pair self.root self.rest result.root result.rest }
    {
        let rest: u64 = (self.rest << 2) + pair;
        let trial: u64 = (self.root << 2) + 1;
        let goes: bool = trial <= rest;
        Drawing {
            root: (self.root << 1) + goes as u64,
            rest: if goes { rest - trial } else { rest },
        }
    }

    // The digits of a word brought down, two by two: a digit of the root for each pair.
    pub fn bring_down(self, word: u64, pairs: u64) -> Drawing
        requires { (pairs ≤ 32) × (word < 2 ^ (2 * pairs)) × (self.root < 2 ^ 30) }
        ensures { Appended pairs word self.root self.rest result.root result.rest }
    {
        let mut drawing: Drawing = self;
        for left in (0..pairs).rev() {
            drawing = drawing.draw((word >> (2 * left)) & 3);
        }
        drawing
    }
}

// The whole number nearest to the root of m * 2^52, for m from 2^52 up to 2^54. Of the root of m * 2^54, which is twice as large, 54 digits are drawn;
// the last one rounds.
fn root_digits(m: u64) -> u64
    requires { (2 ^ 52 ≤ m) × (m < 2 ^ 54) }
    ensures { Digits (m * 2 ^ 52) result }
{
    let upper: Drawing = Drawing { root: 0, rest: 0 }.bring_down(m, 27);
    let lower: Drawing = upper.bring_down(0, 27);
    (lower.root + 1) >> 1
}

// The pattern of the root of digits * 2^exp, a square of units. Half of an even exponent is the root's own.
#[tactic(auto, using(crate::proofs::Scaling::even, crate::proofs::Scaling::uneven))]
fn root_from(digits: u64, exp: u64) -> u64
    requires { (2 ^ 52 ≤ digits) × (digits < 2 ^ 53) × (1022 ≤ exp) × (exp < 3200) }
    ensures { RootAt (digits * 2 ^ exp) result }
{
    if exp % 2 == 0 {
        (exp - 52) / 2 * LEAD + root_digits(digits)
    } else {
        (exp - 53) / 2 * LEAD + root_digits(digits * 2)
    }
}

// The pattern of the root of t units, for a t below the least normal double. It is moved up until it has 53 digits.
#[tactic(auto, using(crate::proofs::Scaling::asked, crate::proofs::Scaling::moved))]
fn root_small(t: u64) -> u64
    requires { (0 < t) × (t < 2 ^ 52) }
    ensures { RootAt (t * 2 ^ 1074) result }
{
    let up: u64 = (52 - t.ilog2()) as u64;
    root_from(t << up, 1074 - up)
}

// The pattern of the root of the double with the pattern b, which is above zero and finite.
// Stays (plainer): no conversion; it is a root, from a pattern to a pattern, so that its proof is of whole numbers alone.
#[tactic(auto, using(crate::proofs::RootAt::small_root, crate::proofs::RootAt::large_root))]
fn root_of_bits(b: u64) -> u64
    requires { (0 < b) × (b < 2047 * 2 ^ 52) }
    ensures { RootAt (pattern_units b * 2 ^ 1074) result }
{
    let e: u64 = b / LEAD;
    let t: u64 = b % LEAD;
    if e == 0 {
        root_small(t)
    } else {
        root_from(LEAD + t, e + 1073)
    }
}

// The double nearest to the square root of x; -0.0 of -0.0. Serves the tolerance and the cap area.
// Stays (proof): document 02, E6, asks for a root that is drawn digit by digit, proved after each; the library's `sqrt` says its result alone.
#[tactic(auto, using(crate::proofs::RootAt::number, crate::proofs::RootAt::asked))]
pub fn sqrt(x: f64) -> f64
    requires { T (rootable x) }
    ensures { Rooted x result }
{
    if x == 0.0 {
        return x;
    }
    f64::from_bits(root_of_bits(f64::to_bits(x)))
}
