// Which of the supplied cap triangles are joined to a seed (document 01, module 6; boundary_closure.rs, `select_closed_plus`).
#![tactic(auto)]

mod labels;
pub mod seeds;
