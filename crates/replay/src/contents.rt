// Lists of a stored request, and what outputs and work room hold before a call.
ghost use Rattle.std.specs.Prelude.{◌≡◌, ℕ, ◌+◌, ◌%◌, ◌≤◌, ◌<◌, length, slice_index_or};
ghost use Rattle.replay.specs.Contents.{double_of, old_doubles};

use crate::layout::is_nan;

// A stored double; 0 for the bits of a NaN, which a caller has ruled out.
// Stays (plainer): `f64::from_bits` wants to know that they are no NaN's, and with the test here no caller need hand that on.
pub fn double(word: u64) -> f64
    ensures { result ≡ double_of word }
{
    if is_nan(word) {
        0.0
    } else {
        f64::from_bits(word)
    }
}

// The low half of a word; a caller has ruled out that the high half is not 0.
// Stays (plainer): `u32::try_from` answers an error too, which each caller would have to take apart.
pub fn low_half(word: u64) -> u32
    ensures { result ≡ word % 4294967296 }
{
    (word % 4294967296) as u32
}

// Writes what `f` makes of each word of a list.
pub fn read<T: Copy, F: Fn(u64) -> T>(list: &mut [T], words: &[u64], f: F)
    requires long { length list.old ≡ length words.now }
    requires callable { F.IsAlwaysCallable f }
    ensures long { length list.new ≡ length words.now }
    ensures read { (k : ℕ) (x : T) → k < length list.new → F.post f (slice_index_or words.now k 0) (slice_index_or list.new k x) }
{
    for (i, x) in list.iter_mut().enumerate() {
        *x = f(words[i]);
    }
}

// As an output of doubles is before a call.
#[tactic(auto, using(crate::proofs::Filling::next_double))]
pub fn old_doubles(output: &mut [f64])
    ensures { output.new ≡ old_doubles (length output.old) }
{
    let mut next = 1.5;
    for x in output.iter_mut() {
        *x = next;
        next += 1.0;
    }
}

// As an output of numbers or of words is before a call, and the work room.
pub fn old_numbers<T: Copy + From<u32>>(output: &mut [T])
    requires { length output.old ≤ 20480 }
    ensures long { length output.new ≡ length output.old }
    ensures counted { (k : ℕ) (x : T) → k < length output.new → T.from_gives (3000000000 + k) (slice_index_or output.new k x) }
{
    let mut next = 3_000_000_000u32;
    for x in output.iter_mut() {
        *x = T::from(next);
        next += 1;
    }
}
