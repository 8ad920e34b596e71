// The supplied cap triangles: which lists are faulty, and how a triangle is turned outward (document 01, module 6; boundary_closure.rs).
#![tactic(auto)]

pub mod listed;
pub mod room;
pub mod turning;
