// One point against the faces of a box (document 01, module 3; aabb_clipping.rs of the Rust): inside tests, snapping, and crossings.
#![tactic(auto)]

pub mod clip;
pub mod crossing;
