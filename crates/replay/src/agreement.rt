// Each stored request is run again, and its answer compared with the stored one.
ghost use Rattle.lists.specs.Lists.{Decides};
ghost use Rattle.replay.specs.Agreement.{ToleranceAgrees, Agrees};

use crate::contents::double;
use crate::layout::are_numbers;
use crate::operation::Operation;
use crate::record::{EPS, LISTS, MAX_X, MAX_Y, MAX_Z, MIN_X, MIN_Y, MIN_Z, Record};
use crate::requests::lists_agree;
use yongpham::yongpham_tolerance;

// A box alone: a record without lists.
fn tolerance_agrees(stored: Record) -> bool
    ensures { Decides (ToleranceAgrees stored.entry.words.now) result }
{
    let words = stored.words;
    if words.len() != LISTS || !are_numbers(&words[MIN_X..EPS]) {
        return false;
    }
    let mut values = [0u64; 4];
    let number = yongpham_tolerance(
        double(words[MIN_X]),
        double(words[MIN_Y]),
        double(words[MIN_Z]),
        double(words[MAX_X]),
        double(words[MAX_Y]),
        double(words[MAX_Z]),
        &mut values,
    );
    stored.has_reply(number, &values)
}

// A record that is not laid out as its operation's are does not agree.
#[tactic(auto, using(crate::proofs::Agreeing::nameless, crate::proofs::Deciding::refuted))]
pub fn agrees(stored: Record) -> bool
    ensures { Decides (Agrees stored.entry.words.now) result }
{
    match stored.operation() {
        None => false,
        Some(Operation::Tolerance) => tolerance_agrees(stored),
        Some(operation) => match stored.request(operation) {
            None => false,
            Some(request) => lists_agree(request),
        },
    }
}
