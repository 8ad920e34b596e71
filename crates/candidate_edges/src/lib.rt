// Open edges and corner vertices as candidates (document 01, module 5; boundary_closure.rs).
#![tactic(auto)]

pub mod corners;
pub mod open;
