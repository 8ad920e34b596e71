// Clearing of a part of a lent buffer, for tables that share one.
// Stays (C interface), point 6: tables stand in one lent buffer, each from a place on, since C lends one buffer and there is no heap. What a caller needs is said of the whole buffer:
// the part is zero and the rest as it was.
ghost use Rattle.std.specs.Prelude.{◌+◌, ◌≤◌, length};
ghost use Rattle.lists.specs.Regions.{PartZeroed};

pub fn zero_part(w: &mut [u64], at: usize, n: usize)
    requires { at + n ≤ length w.old }
    ensures { PartZeroed w.old w.new at n }
{
    w[at..at + n].fill(0);
}
