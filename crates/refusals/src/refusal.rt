// Every way in which an operation turns its input down: document 01, "Refusals, in the order tested". specs/Refusals.antt gives each its number.
#[derive(Clone, Copy)]
pub enum Refusal {
    // a list length is no multiple of 3 (cap list: of 4)
    Ragged,
    // a list exceeds its count
    TooMany,
    // a facet number is not below the vertex count
    BadIndex,
    // a coordinate, box corner, eps or resolution is not finite or breaks its range
    BadNumber,
    // min < max fails on an axis
    BadBox,
    // an axis needs over 256 segments
    GridTooFine,
    // fewer words of work room than this are lent
    NoWorkRoom(usize),
    // a vertex or box corner has a key beyond 2^62
    KeyRange,
    // an open edge lies on no box face: the smallest such pair
    OpenEdge(usize, usize),
    // a supplied triangle is faulty: the first one's place
    BadCap(usize),
    // an open edge is no edge of any triangle supplied for its face: the first one's place
    MissingEdge(usize),
    // an output is shorter than its result, which has this many elements
    NoRoom(usize),
}
