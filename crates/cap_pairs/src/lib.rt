// The pairs of candidates that open edges and sides of supplied triangles have, and what is known of each (document 01, module 6 and test 11; boundary_closure.rs).
#![tactic(auto)]

pub mod missing;
pub mod noting;
pub mod pairs;
