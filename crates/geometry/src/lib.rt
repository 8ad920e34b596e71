// Points, triangles, the box and the three numberings (document 01, module 1; geometry/point.rs and geometry/triangle.rs of the Rust).
#![tactic(auto)]

pub mod aabb;
pub mod face;
pub mod mesh;
pub mod numbers;
pub mod point;
#[cfg(test)]
mod tests;
pub mod triangle;
pub mod vertices;
