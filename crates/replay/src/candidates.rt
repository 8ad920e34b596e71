// The operation candidates, which writes four lists of words.
ghost use Rattle.std.specs.Prelude.{◌∷◌};
ghost use Rattle.lists.specs.Lists.{Decides};
ghost use Rattle.replay.specs.Agreement.{FourListed, FreshWords, CandidatesStored};

use crate::compare::{same_listing, same_words};
use crate::contents::double;
use crate::record::{
    CEILING, EPS, FIRST, FOURTH, MAX_X, MAX_Y, MAX_Z, MIN_X, MIN_Y, MIN_Z, RESOLUTION, Request,
    SECOND, THIRD,
};
use yongpham::yongpham_candidates;

fn same_candidates(
    request: Request,
    number: u32,
    values: &[u64; 4],
    candidates: &[u64],
    face_lists: &[u64],
    constraints: &[u64],
    open_edges: &[u64],
    work: &[u64],
) -> bool
    ensures { Decides
        (FourListed request.entry.words.now (number ∷ values.now) candidates.now face_lists.now constraints.now
        open_edges.now work.now) result }
{
    let words = request.words;
    let from = request.outputs()
        + words[FIRST] as usize
        + words[SECOND] as usize
        + words[THIRD] as usize;
    let end = from + words[FOURTH] as usize;
    same_listing(
        request,
        number,
        values,
        candidates,
        face_lists,
        constraints,
        work,
    ) & same_words(open_edges, &words[from..end])
}

pub fn candidates_agree(
    request: Request,
    vertices: &[f64],
    facets: &[u32],
    work: &mut [u64],
    candidates: &mut [u64],
    face_lists: &mut [u64],
    constraints: &mut [u64],
    open_edges: &mut [u64],
) -> bool
    requires { FreshWords request.words.now work.old candidates.old face_lists.old constraints.old open_edges.old }
    ensures { Decides (CandidatesStored request.entry.words.now vertices.now facets.now) result }
{
    let mut values = [0u64; 4];
    let number = yongpham_candidates(
        vertices,
        facets,
        double(request.words[MIN_X]),
        double(request.words[MIN_Y]),
        double(request.words[MIN_Z]),
        double(request.words[MAX_X]),
        double(request.words[MAX_Y]),
        double(request.words[MAX_Z]),
        double(request.words[EPS]),
        double(request.words[RESOLUTION]),
        request.words[CEILING],
        work,
        candidates,
        face_lists,
        constraints,
        open_edges,
        &mut values,
    );
    same_candidates(
        request,
        number,
        &values,
        candidates,
        face_lists,
        constraints,
        open_edges,
        work,
    )
}
