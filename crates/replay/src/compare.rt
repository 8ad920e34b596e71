// Comparison of what a call left with what is stored, element by element.
ghost use Rattle.std.specs.Prelude.{◌≡◌, ◌∷◌, ◌+◌, ◌≤◌, length, get_or};
ghost use Rattle.std.specs.Float.{nan};
ghost use Rattle.lists.specs.Lists.{Decides};
ghost use Rattle.replay.specs.Words.{Everywhere};
ghost use Rattle.replay.specs.Layout.{outputs_from};
ghost use Rattle.replay.specs.Agreement.{SameDouble, AgreesWith, ThreeListed};

use crate::record::{FIRST, Request, SECOND, THIRD};

fn same_double(x: f64, word: u64) -> bool
    ensures { Decides (SameDouble x word) result }
{
    !x.is_nan() && x.to_bits() == word
}

// The words are the bits of the doubles.
pub fn same_doubles(output: &[f64], words: &[u64]) -> bool
    requires { length output.now ≤ length words.now }
    ensures { Decides (Everywhere (λ k. SameDouble (get_or output.now k nan) (get_or words.now k 0)) (length output.now)) result }
{
    output
        .iter()
        .zip(words)
        .all(|(x, word)| same_double(*x, *word))
}

// The words are the numbers.
pub fn same_numbers(output: &[u32], words: &[u64]) -> bool
    requires { length output.now ≤ length words.now }
    ensures { Decides (Everywhere (λ k. get_or output.now k 0 ≡ get_or words.now k 0) (length output.now)) result }
{
    output
        .iter()
        .zip(words)
        .all(|(x, word)| u64::from(*x) == *word)
}

pub fn same_words(output: &[u64], words: &[u64]) -> bool
    ensures { Decides (output.now ≡ words.now) result }
{
    output == words
}

pub fn is_zero(room: &[u64]) -> bool
    ensures { Decides (Everywhere (λ k. get_or room.now k 0 ≡ 0) (length room.now)) result }
{
    room.iter().all(|word| *word == 0)
}

// The whole answer of an operation that writes a mesh.
pub fn same_answer(
    request: Request,
    number: u32,
    values: &[u64; 4],
    out_vertices: &[f64],
    out_facets: &[u32],
    work: &[u64],
) -> bool
    requires { outputs_from request.words.now + length out_vertices.now + length out_facets.now ≤ length request.words.now }
    ensures { Decides (AgreesWith request.entry.words.now (number ∷ values.now) out_vertices.now out_facets.now work.now) result }
{
    let from = request.outputs();
    request.record().has_reply(number, values)
        & same_doubles(out_vertices, &request.words[from..])
        & same_numbers(out_facets, &request.words[from + out_vertices.len()..])
        & is_zero(work)
}

// The answer of an operation that writes lists of words, up to its third list.
#[tactic(auto, using(crate::proofs::Comparing::listing_alike))]
pub fn same_listing(
    request: Request,
    number: u32,
    values: &[u64; 4],
    first: &[u64],
    second: &[u64],
    third: &[u64],
    work: &[u64],
) -> bool
    ensures { Decides
        (ThreeListed request.entry.words.now (number ∷ values.now) first.now second.now third.now work.now) result }
{
    let from = request.outputs();
    let from_second = from + request.words[FIRST] as usize;
    let from_third = from_second + request.words[SECOND] as usize;
    let end = from_third + request.words[THIRD] as usize;
    request.record().has_reply(number, values)
        & is_zero(work)
        & same_words(first, &request.words[from..from_second])
        & same_words(second, &request.words[from_second..from_third])
        & same_words(third, &request.words[from_third..end])
}
