// Bucket chains: a table of ids by buckets in a lent buffer, a hash of three words, and a table of words as the pattern for others.
#![tactic(auto)]

mod by_word;
mod hash;
mod links;

pub use hash::{Hashed, mix};
pub use links::Chains;
