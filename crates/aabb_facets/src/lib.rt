// Clipping a mesh's facets to a box (document 01, module 3; aabb_clipping.rs of the Rust), in passes that count and write.
#![tactic(auto)]

pub mod facets;
pub mod marks;
pub mod outputs;
pub mod passes;
