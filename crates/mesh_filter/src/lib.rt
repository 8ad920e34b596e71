// The facets that pass the filters of cleaning (document 01, module 4; mesh_cleanup.rs).
#![tactic(auto)]

pub mod corners;
pub mod filter;
