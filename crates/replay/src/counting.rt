// How many requests of an operation a file has, and how many of them agree.
ghost use Rattle.replay.specs.Counting.{Tallied};
ghost use Rattle.replay.specs.Operations.{number_of};

use crate::agreement::agrees;
use crate::operation::Operation;
use crate::record::first_record;

#[derive(Clone, Copy)]
pub struct Tally {
    pub requests: u64,
    pub agreeing: u64,
}

pub fn count(records: &[u64], operation: Operation) -> Tally
    ensures { Tallied (number_of operation) records.now result.requests result.agreeing }
{
    let mut tally = Tally {
        requests: 0,
        agreeing: 0,
    };
    let mut left = records;
    // Stays (plainer): an iterator of records would be a type with a model of its own, for this loop alone.
    while let Some((record, behind)) = first_record(left) {
        let requested = record.is_of(operation);
        let agreeing = requested && agrees(record);
        tally.requests += requested as u64;
        tally.agreeing += agreeing as u64;
        left = behind;
    }
    tally
}
