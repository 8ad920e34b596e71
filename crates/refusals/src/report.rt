// A reply as plain numbers, for callers in C and for stored answers: document 01's number, and its values in four words.
ghost use Rattle.std.specs.Prelude.{◌≡◌, [], ◌∷◌};
ghost use Rattle.refusals.specs.Refusals.{documented, documented_reply};
ghost use Rattle.refusals.specs.Reports.{Reported};

use crate::refusal::Refusal;
use crate::reply::Reply;

// The number 0, for done.
// Stays (C interface): C lends the four words, so that what a `From` answered would be copied to them by each caller.
pub fn report_done(values: &mut [u64; 4], a: u64, b: u64, c: u64, d: u64) -> u32
    ensures { (result ≡ 0) × (values.new ≡ a ∷ b ∷ c ∷ d ∷ []) }
{
    *values = [a, b, c, d];
    0
}

// A number with two values.
// Stays (C interface): the numbers are documented for C, and the words are lent as in `report_done`.
fn report_values(values: &mut [u64; 4], number: u32, first: u64, second: u64) -> u32
    ensures { (result ≡ number) × (values.new ≡ first ∷ second ∷ 0 ∷ 0 ∷ []) }
{
    *values = [first, second, 0, 0];
    number
}

// Stays (C interface): as `report_done`.
pub fn report_refusal(values: &mut [u64; 4], refusal: Refusal) -> u32
    ensures { Reported (documented refusal) result values.new }
{
    match refusal {
        Refusal::Ragged => report_values(values, 1, 0, 0),
        Refusal::TooMany => report_values(values, 2, 0, 0),
        Refusal::BadIndex => report_values(values, 3, 0, 0),
        Refusal::BadNumber => report_values(values, 4, 0, 0),
        Refusal::BadBox => report_values(values, 5, 0, 0),
        Refusal::GridTooFine => report_values(values, 6, 0, 0),
        Refusal::NoWorkRoom(need) => report_values(values, 7, need as u64, 0),
        Refusal::KeyRange => report_values(values, 8, 0, 0),
        Refusal::OpenEdge(a, b) => report_values(values, 9, a as u64, b as u64),
        Refusal::BadCap(place) => report_values(values, 10, place as u64, 0),
        Refusal::MissingEdge(place) => report_values(values, 11, place as u64, 0),
        Refusal::NoRoom(need) => report_values(values, 12, need as u64, 0),
    }
}

// Of more than four lengths the first four.
// Stays (C interface): as `report_done`.
pub fn report_reply<const N: usize>(values: &mut [u64; 4], reply: Reply<N>) -> u32
    ensures { Reported (documented_reply reply.entry) result values.new }
{
    match reply {
        Ok(lengths) => report_lengths(values, &lengths),
        Err(refusal) => report_refusal(values, refusal),
    }
}

// Stays (C interface): as `report_done`.
fn report_lengths(values: &mut [u64; 4], lengths: &[usize]) -> u32
    ensures { Reported (0 ∷ lengths.now) result values.new }
{
    let length = |i: usize| lengths.get(i).copied().unwrap_or(0) as u64;
    *values = [length(0), length(1), length(2), length(3)];
    0
}
