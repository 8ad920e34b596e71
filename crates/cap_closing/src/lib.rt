// The caps that are written: corners entered among the mesh vertices, the area test, the first of each three corners (document 01, module 6; boundary_closure.rs).
#![tactic(auto)]

mod appending;
pub mod closing;
mod entering;
mod firsts;
