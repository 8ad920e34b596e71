// The face grids as candidates (document 01, module 5; boundary_closure.rs).
#![tactic(auto)]

pub mod grids;
