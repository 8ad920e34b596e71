// Copies to the front of an output, three elements in a row, and stores that happen only where there is room.
ghost use Rattle.std.specs.Prelude.{◌≡◌, [], ◌∷◌, ◌+◌, ◌<◌, ◌≤◌, length, set};
ghost use Rattle.std.proofs.lemmas.List.Edits.{sets};
ghost use Rattle.words.specs.Overlay.{overlay};

// Stays (C interface): a loop, and not the library's `copy_from_slice`, which calls `memmove`: the archive for C asks for nothing from outside but `memset`.
pub fn copy_front<T: Copy>(from: &[T], to: &mut [T])
    requires { length from.now ≤ length to.old }
    ensures { to.new ≡ overlay from.now to.old }
{
    for i in 0..from.len() {
        to[i] = from[i];
    }
}

// `set` leaves a list alone at an index beyond its end, so one pass that stores by this serves for counting, where it is lent no room,
// and for writing.
pub fn put<T: Copy>(out: &mut [T], at: usize, x: T)
    ensures { out.new ≡ set out.old at x }
{
    if at < out.len() {
        out[at] = x;
    }
}

pub fn write_three<T: Copy>(out: &mut [T], at: usize, a: T, b: T, c: T)
    requires { at + 2 < length out.old }
    ensures { out.new ≡ sets out.old at (a ∷ b ∷ c ∷ []) }
{
    out[at] = a;
    out[at + 1] = b;
    out[at + 2] = c;
}
