// Tests 1 to 9 of candidates and of caps (document 01, the table of refusals). 9 is where `detect_boundary_edges` of boundary_closure.rs panics; the Rust has none of
// the others.
#![tactic(auto)]

pub mod tests;
