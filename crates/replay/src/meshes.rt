// The operations that write a mesh: clip, clean and caps.
ghost use Rattle.std.specs.Prelude.{◌≡◌, length, get_or};
ghost use Rattle.lists.specs.Lists.{Decides};
ghost use Rattle.replay.specs.Agreement.{Fresh, ClipStored, CleanStored, CapsStored, MeshStored};

use crate::compare::same_answer;
use crate::contents::{double, low_half, old_doubles, old_numbers};
use crate::operation::Operation;
use crate::record::{
    CAP_WORDS, CEILING, COORDINATES, EPS, FACET_NUMBERS, FIRST, LARGEST, LISTS, LONGEST, MAX_X,
    MAX_Y, MAX_Z, MIN_X, MIN_Y, MIN_Z, MODE, RESOLUTION, Request, SECOND, WORK,
};
use yongpham::{yongpham_caps, yongpham_clean, yongpham_clip};

fn clip_agrees(
    request: Request,
    vertices: &[f64],
    facets: &[u32],
    work: &mut [u64],
    out_vertices: &mut [f64],
    out_facets: &mut [u32],
) -> bool
    requires { Fresh request.words.now work.old out_vertices.old out_facets.old }
    ensures { Decides (ClipStored request.entry.words.now vertices.now facets.now) result }
{
    let mut values = [0u64; 4];
    let number = yongpham_clip(
        vertices,
        facets,
        double(request.words[MIN_X]),
        double(request.words[MIN_Y]),
        double(request.words[MIN_Z]),
        double(request.words[MAX_X]),
        double(request.words[MAX_Y]),
        double(request.words[MAX_Z]),
        double(request.words[EPS]),
        request.words[CEILING],
        work,
        out_vertices,
        out_facets,
        &mut values,
    );
    same_answer(request, number, &values, out_vertices, out_facets, work)
}

fn clean_agrees(
    request: Request,
    vertices: &[f64],
    facets: &[u32],
    work: &mut [u64],
    out_vertices: &mut [f64],
    out_facets: &mut [u32],
) -> bool
    requires { Fresh request.words.now work.old out_vertices.old out_facets.old }
    ensures { Decides (CleanStored request.entry.words.now vertices.now facets.now) result }
{
    let mut values = [0u64; 4];
    let number = yongpham_clean(
        vertices,
        facets,
        double(request.words[EPS]),
        request.words[CEILING],
        work,
        out_vertices,
        out_facets,
        &mut values,
    );
    same_answer(request, number, &values, out_vertices, out_facets, work)
}

// The cap list is of words, so that it is lent as it lies in the record.
fn caps_agrees(
    request: Request,
    vertices: &[f64],
    facets: &[u32],
    work: &mut [u64],
    out_vertices: &mut [f64],
    out_facets: &mut [u32],
) -> bool
    requires { Fresh request.words.now work.old out_vertices.old out_facets.old }
    ensures { Decides (CapsStored request.entry.words.now vertices.now facets.now) result }
{
    let words = request.words;
    let from = LISTS + words[COORDINATES] as usize + words[FACET_NUMBERS] as usize;
    let end = from + words[CAP_WORDS] as usize;
    let mut values = [0u64; 4];
    let number = yongpham_caps(
        vertices,
        facets,
        &words[from..end],
        double(request.words[MIN_X]),
        double(request.words[MIN_Y]),
        double(request.words[MIN_Z]),
        double(request.words[MAX_X]),
        double(request.words[MAX_Y]),
        double(request.words[MAX_Z]),
        double(request.words[EPS]),
        double(request.words[RESOLUTION]),
        low_half(request.words[MODE]),
        request.words[CEILING],
        work,
        out_vertices,
        out_facets,
        &mut values,
    );
    same_answer(request, number, &values, out_vertices, out_facets, work)
}

// Runs the request with these lists in this room. An operation that writes no mesh agrees with nothing here.
fn run(
    request: Request,
    vertices: &[f64],
    facets: &[u32],
    work: &mut [u64],
    out_vertices: &mut [f64],
    out_facets: &mut [u32],
) -> bool
    requires { (length work.old ≡ get_or request.words.now 14 0) × ((length out_vertices.old ≡ get_or request.words.now 15 0) × (length out_facets.old ≡ get_or request.words.now 16 0)) }
    ensures { Decides (MeshStored request.entry.words.now vertices.now facets.now) result }
{
    old_numbers(work);
    old_doubles(out_vertices);
    old_numbers(out_facets);
    match request.operation {
        Operation::Clip => clip_agrees(request, vertices, facets, work, out_vertices, out_facets),
        Operation::Clean => clean_agrees(request, vertices, facets, work, out_vertices, out_facets),
        Operation::Caps => caps_agrees(request, vertices, facets, work, out_vertices, out_facets),
        _ => false,
    }
}

pub fn mesh_answer_agrees(request: Request, vertices: &[f64], facets: &[u32]) -> bool
    ensures { Decides (MeshStored request.entry.words.now vertices.now facets.now) result }
{
    let words = request.words;
    let lent = words[WORK] as usize;
    let v = words[FIRST] as usize;
    let f = words[SECOND] as usize;
    let mut work = [0u64; LARGEST];
    let mut out_vertices = [0.0; LONGEST];
    let mut out_facets = [0u32; LONGEST];
    run(
        request,
        vertices,
        facets,
        &mut work[..lent],
        &mut out_vertices[..v],
        &mut out_facets[..f],
    )
}
