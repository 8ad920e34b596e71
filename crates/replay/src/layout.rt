// The layout of stored answers (README.md): a header of four words, then the records one after the other, each with its length in front. All
// that is read is tested here before it is used.
ghost use Rattle.std.specs.Prelude.{◌≡◌, false, ◌≤◌, ◌<◌, length, get_or, drop, MatchOption};
ghost use Rattle.std.specs.Float.{binary64};
ghost use Rattle.std.specs.Float.Ieee.{nan_bits};
ghost use Rattle.lists.specs.Lists.{Decides};
ghost use Rattle.replay.specs.Words.{Everywhere};
ghost use Rattle.replay.specs.Counting.{Records, AnswersFile};

use crate::record::first_record;

// "yongpham", the least byte first
const MAGIC: u64 = 7881695654855995257;

const FORMAT: u64 = 2;

// The records fill what is behind the header, and are as many as it says.
fn are_records(records: &[u64], count: u64) -> bool
    ensures { Decides (Records records.now count) result }
{
    let mut left = records;
    for _ in 0..count {
        match first_record(left) {
            Some((_, behind)) => left = behind,
            None => return false,
        }
    }
    left.is_empty()
}

// What is behind the header of a file that is laid out so.
pub fn records_of(file: &[u64]) -> Option<&[u64]>
    ensures { MatchOption result (AnswersFile file.now → ⊥) (λ records. AnswersFile file.now × (records.now ≡ drop 4 file.now)) }
{
    match file {
        [MAGIC, FORMAT, count, size, records @ ..]
            if *size as usize == file.len() && are_records(records, *count) => { Some(records) }
        _ => None,
    }
}

// Whether a word is the bits of a NaN.
// Stays (proof): `f64::from_bits(word).is_nan()` does not close, since `from_bits` requires that the word is no NaN's, which is what is asked.
pub fn is_nan(word: u64) -> bool
    ensures { result ≡ nan_bits binary64 word }
{
    word % 9223372036854775808 / 4503599627370496 == 2047 && word % 4503599627370496 != 0
}

// The words are bits of doubles and none of a NaN, whose bits Rattle leaves open.
pub fn are_numbers(words: &[u64]) -> bool
    ensures { Decides (Everywhere (λ k. nan_bits binary64 (get_or words.now k 0) ≡ false) (length words.now)) result }
{
    words.iter().all(|word| !is_nan(*word))
}

// None of the words is above `most`.
pub fn are_few(words: &[u64], most: u64) -> bool
    ensures { Decides (Everywhere (λ k. get_or words.now k 0 ≤ most) (length words.now)) result }
{
    words.iter().all(|word| *word <= most)
}
