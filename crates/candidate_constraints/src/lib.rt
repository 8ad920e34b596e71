// Constraints of the faces (document 01, module 5; boundary_closure.rs).
#![tactic(auto)]

pub mod constraints;
mod distinct;
mod pairs;
mod places;
mod side;
