// The sides of facets: the edge table, which is all sides sorted by their pair of ends, and the open edges in ascending order of their pair.
// Side s of a list of facets runs from the corner facets[s] to the next corner of its facet.
// Stays (plainer), point 5: `length facets % 3 ≡ 0` of the functions over facets: C lends the facets as numbers, and a struct with that fact would be made at each of the operations.
#![tactic(auto)]

mod ends;
mod open;
mod table;

pub use ends::{edge_from, edge_to, next_side, side_key};
pub use open::{keep_open, open_edges};
pub use table::{side_records, sort_sides};
