// Clipping one polygon to a box (document 01, module 3; aabb_clipping.rs of the Rust): Sutherland and Hodgman's walk round the corners, plane by
// plane.
#![tactic(auto)]

pub mod polygon;
