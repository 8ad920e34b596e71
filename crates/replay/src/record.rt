// A stored request with the answer that it got, by what its words are (README.md has the table).
ghost use Rattle.std.specs.Prelude.{◌≡◌, ◌≢◌, ◌∷◌, ◌+◌, ◌≤◌, length, get_or, MatchOption};
ghost use Rattle.lists.specs.Lists.{Decides};
ghost use Rattle.replay.specs.Layout.{Laid, stored_reply, outputs_from};
ghost use Rattle.replay.specs.Counting.{Requested};
ghost use Rattle.replay.specs.Operations.{number_of};
ghost use Rattle.replay.specs.declared.operation.Operation.{Operation};
ghost use Rattle.replay.specs.Words.{record_length, FirstRecord};

use crate::compare::same_words;
use crate::layout::are_few;
use crate::operation::Operation;

// Where the numbers stand that are in front of the lists: the operation; the lengths of the three lists; mode, box, eps and resolution; the words of work
// room; the lengths of the four outputs; the reply's number and values; the caller's ceiling and the vertex count.
pub const OPERATION: usize = 1;

pub const COORDINATES: usize = 2;

pub const FACET_NUMBERS: usize = 3;

pub const CAP_WORDS: usize = 4;

pub const MODE: usize = 5;

pub const MIN_X: usize = 6;

pub const MIN_Y: usize = 7;

pub const MIN_Z: usize = 8;

pub const MAX_X: usize = 9;

pub const MAX_Y: usize = 10;

pub const MAX_Z: usize = 11;

pub const EPS: usize = 12;

pub const RESOLUTION: usize = 13;

pub const WORK: usize = 14;

pub const FIRST: usize = 15;

pub const SECOND: usize = 16;

pub const THIRD: usize = 17;

pub const FOURTH: usize = 18;

pub const NUMBER: usize = 19;

pub const VALUES: usize = 20;

pub const CEILING: usize = 24;

pub const VERTEX_COUNT: usize = 25;

// How many they are: where the lists begin.
pub const LISTS: usize = 32;

// How long a list or an output may be, and the work room: there is room for so much here.
pub const LONGEST: usize = 1024;

pub const LARGEST: usize = 20480;

// As many words as stand in front of the lists, or more.
#[derive(Clone, Copy)]
pub struct Record<'a> {
    pub words: &'a [u64],
    ghost head: { 32 ≤ length words.now },
}

// The record at the front of what is left of a file, and what is behind it; none where no record is whole.
pub fn first_record(left: &[u64]) -> Option<(Record<'_>, &[u64])>
    ensures { MatchOption result (record_length left.now ≡ 0) (λ parts. FirstRecord left.now parts.0.words.now parts.1.now) }
{
    if left.len() < LISTS {
        return None;
    }
    let length = left[0] as usize;
    if length < LISTS || left.len() < length {
        return None;
    }
    let (words, behind) = left.split_at(length);
    Some((Record { words }, behind))
}

// A record whose lists and outputs fill it, and are not longer than there is room for here.
#[derive(Clone, Copy)]
pub struct Request<'a> {
    pub words: &'a [u64],
    pub operation: Operation,
    ghost laid: { Laid words.now },
    ghost named: { number_of operation ≡ get_or words.now 1 0 },
}

impl<'a> Record<'a> {
    // A number that is no operation's names none.
    pub fn operation(self) -> Option<Operation>
        ensures { MatchOption result ((o : Operation) → number_of o ≢ get_or self.entry.words.now 1 0) (λ o. number_of o ≡ get_or self.entry.words.now 1 0) }
    {
        Operation::try_from(self.words[OPERATION]).ok()
    }

    pub fn is_of(self, operation: Operation) -> bool
        ensures { Decides (Requested (number_of operation) self.entry.words.now) result }
    {
        self.operation() == Some(operation)
    }

    // Its reply, a number and four values, is the one that is stored.
    pub fn has_reply(self, number: u32, values: &[u64; 4]) -> bool
        ensures { Decides (number ∷ values.now ≡ stored_reply self.entry.words.now) result }
    {
        self.words[NUMBER] == u64::from(number) && same_words(values, &self.words[VALUES..CEILING])
    }

    // The record of an operation, if it is as long as its lists and outputs make it.
    pub fn request(self, operation: Operation) -> Option<Request<'a>>
        requires { number_of operation ≡ get_or self.words.now 1 0 }
        ensures { MatchOption result (Laid self.entry.words.now → ⊥) (λ request. Laid self.entry.words.now × (request.words.now ≡ self.entry.words.now)) }
    {
        let words = self.words;
        if !are_few(&words[COORDINATES..MODE], LONGEST as u64)
            || !are_few(&words[FIRST..NUMBER], LONGEST as u64)
            || words[WORK] > LARGEST as u64
        {
            return None;
        }
        let lists = words[COORDINATES] + words[FACET_NUMBERS] + words[CAP_WORDS];
        let outputs = words[FIRST] + words[SECOND] + words[THIRD] + words[FOURTH];
        if LISTS as u64 + lists + outputs != words.len() as u64 {
            return None;
        }
        Some(Request { words, operation })
    }
}

impl<'a> Request<'a> {
    pub fn record(self) -> Record<'a>
        ensures { result.words.now ≡ self.entry.words.now }
    {
        Record { words: self.words }
    }

    // Where the outputs begin: behind the lists.
    pub fn outputs(self) -> usize
        ensures { result ≡ outputs_from self.entry.words.now }
    {
        LISTS
            + self.words[COORDINATES] as usize
            + self.words[FACET_NUMBERS] as usize
            + self.words[CAP_WORDS] as usize
    }
}
