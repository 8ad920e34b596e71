// Leaves over lent words: clearing, copies to the front of an output, and several numbers packed into one word.
#![tactic(auto)]

mod clearing;
mod copying;
mod packing;
mod parts;

pub use clearing::zero;
pub use copying::{copy_front, put, write_three};
pub use packing::{pack_edge, pack_pair, pack_triple, unpack_pair, unpack_triple};
pub use parts::zero_part;
