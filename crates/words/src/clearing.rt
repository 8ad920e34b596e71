// Clearing of lent words.
ghost use Rattle.std.specs.Prelude.{◌≡◌, length, replicate};

// An operation clears its whole room once, at its end; each table clears before what it needs.
pub fn zero(w: &mut [u64])
    ensures { w.new ≡ replicate (length w.old) 0 }
{
    w.fill(0);
}
