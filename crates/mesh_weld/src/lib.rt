// Welding: vertices that lie close together become one (document 01, module 4; mesh_cleanup.rs).
#![tactic(auto)]

pub mod cells;
pub mod search;
pub mod weld;
