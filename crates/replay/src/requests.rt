// The requests with lists: their numbers are tested, their lists are read, and they are run by their operation.
ghost use Rattle.lists.specs.Lists.{Decides};
ghost use Rattle.replay.specs.Agreement.{AnswerStored, ListsStored, StoredNumbers, ListsAgree};

use crate::contents::{double, low_half, read};
use crate::layout::{are_few, are_numbers};
use crate::listings::listing_answer_agrees;
use crate::meshes::mesh_answer_agrees;
use crate::operation::Operation;
use crate::record::{COORDINATES, FACET_NUMBERS, LISTS, LONGEST, MIN_X, MODE, Request, WORK};

// The largest number of 32 bits.
const MOST: u64 = 4294967295;

fn answer_agrees(request: Request, vertices: &[f64], facets: &[u32]) -> bool
    ensures { Decides (AnswerStored request.entry.words.now vertices.now facets.now) result }
{
    match request.operation {
        Operation::Candidates | Operation::BoundaryComponents => {
            listing_answer_agrees(request, vertices, facets)
        }
        _ => mesh_answer_agrees(request, vertices, facets),
    }
}

fn with_lists(request: Request) -> bool
    ensures { Decides (ListsStored request.entry.words.now) result }
{
    let words = request.words;
    let v = words[COORDINATES] as usize;
    let f = words[FACET_NUMBERS] as usize;
    let mut vertices = [0.0; LONGEST];
    let mut facets = [0u32; LONGEST];
    let vertices = &mut vertices[..v];
    let facets = &mut facets[..f];
    read(vertices, &words[LISTS..LISTS + v], double);
    read(facets, &words[LISTS + v..LISTS + v + f], low_half);
    answer_agrees(request, vertices, facets)
}

// Box, eps, resolution and coordinates are doubles, and mode and facet numbers fit 32 bits.
fn has_numbers(request: Request) -> bool
    ensures { Decides (StoredNumbers request.entry.words.now) result }
{
    let words = request.words;
    let facets = LISTS + words[COORDINATES] as usize;
    let caps = facets + words[FACET_NUMBERS] as usize;
    are_few(&words[MODE..MIN_X], MOST)
        & are_numbers(&words[MIN_X..WORK])
        & are_numbers(&words[LISTS..facets])
        & are_few(&words[facets..caps], MOST)
}

pub fn lists_agree(request: Request) -> bool
    ensures { Decides (ListsAgree request.entry.words.now) result }
{
    has_numbers(request) && with_lists(request)
}
