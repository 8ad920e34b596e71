// Doubles and lists compared bit for bit.
ghost use Rattle.std.specs.Prelude.{◌≡◌};
ghost use Rattle.std.specs.List.{starts_with};
ghost use Rattle.cases.specs.Comparing.{bits_of, same_bits};

// What stands for every NaN, whose bits are left open.
const QUIET: u64 = 9221120237041090560;

// Stays (plainer): a NaN's bits are left open, so that it needs a pattern of its own, which no conversion of the library gives.
pub fn bits(x: f64) -> u64
    ensures { result ≡ bits_of x }
{
    if x == x { f64::to_bits(x) } else { QUIET }
}

// The list begins with these doubles.
pub fn begins_with(list: &[f64], front: &[f64]) -> bool
    ensures { result ≡ starts_with same_bits list.now front.now }
{
    front.len() <= list.len() && front.iter().zip(list).all(|(x, y)| bits(*x) == bits(*y))
}
