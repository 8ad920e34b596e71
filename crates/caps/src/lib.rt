// Caps (document 01, module 6; boundary_closure.rs).
#![tactic(auto)]

pub mod closing;
mod front;
pub mod mode;

pub use front::cap_mesh_to_aabb;
