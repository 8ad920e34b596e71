// The operations that write lists of words: candidates, which writes four, and boundary components, which writes three.
ghost use Rattle.std.specs.Prelude.{◌≡◌, length, get_or};
ghost use Rattle.lists.specs.Lists.{Decides};
ghost use Rattle.replay.specs.Agreement.{OutputsLent, FreshWords, ListingStored};

use crate::boundary::boundary_agrees;
use crate::candidates::candidates_agree;
use crate::contents::old_numbers;
use crate::operation::Operation;
use crate::record::{FIRST, FOURTH, LARGEST, LONGEST, Request, SECOND, THIRD, WORK};

// An operation that writes no such lists agrees with nothing here. The fourth output is of candidates alone.
fn listing_agrees(
    request: Request,
    vertices: &[f64],
    facets: &[u32],
    work: &mut [u64],
    first: &mut [u64],
    second: &mut [u64],
    third: &mut [u64],
    fourth: &mut [u64],
) -> bool
    requires { FreshWords request.words.now work.old first.old second.old third.old fourth.old }
    ensures { Decides (ListingStored request.entry.words.now vertices.now facets.now) result }
{
    match request.operation {
        Operation::Candidates => {
            candidates_agree(
                request, vertices, facets, work, first, second, third, fourth,
            )
        }
        Operation::BoundaryComponents => {
            boundary_agrees(request, facets, work, first, second, third)
        }
        _ => false,
    }
}

// Runs the request with these lists in this room.
fn run_listing(
    request: Request,
    vertices: &[f64],
    facets: &[u32],
    work: &mut [u64],
    first: &mut [u64],
    second: &mut [u64],
    third: &mut [u64],
    fourth: &mut [u64],
) -> bool
    requires work_len { length work.old ≡ get_or request.words.now 14 0 }
    requires outputs_lent { OutputsLent request.words.now first.old second.old third.old fourth.old }
    ensures { Decides (ListingStored request.entry.words.now vertices.now facets.now) result }
{
    old_numbers(work);
    old_numbers(first);
    old_numbers(second);
    old_numbers(third);
    old_numbers(fourth);
    listing_agrees(
        request, vertices, facets, work, first, second, third, fourth,
    )
}

pub fn listing_answer_agrees(request: Request, vertices: &[f64], facets: &[u32]) -> bool
    ensures { Decides (ListingStored request.entry.words.now vertices.now facets.now) result }
{
    let words = request.words;
    let lent = words[WORK] as usize;
    let a = words[FIRST] as usize;
    let b = words[SECOND] as usize;
    let c = words[THIRD] as usize;
    let d = words[FOURTH] as usize;
    let mut work = [0u64; LARGEST];
    let mut first = [0u64; LONGEST];
    let mut second = [0u64; LONGEST];
    let mut third = [0u64; LONGEST];
    let mut fourth = [0u64; LONGEST];
    run_listing(
        request,
        vertices,
        facets,
        &mut work[..lent],
        &mut first[..a],
        &mut second[..b],
        &mut third[..c],
        &mut fourth[..d],
    )
}
