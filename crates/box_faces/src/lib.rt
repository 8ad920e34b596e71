// The faces of the box, and what lies on them (document 01, module 5; `BoxFace` of boundary_closure.rs).
#![tactic(auto)]

pub mod faces;
pub mod lines;
pub mod segments;
pub mod sides;
pub mod uv;
