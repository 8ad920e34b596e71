// The last step of cleaning: components of too few facets dropped, vertices renumbered (document 01, module 4; mesh_cleanup.rs).
#![tactic(auto)]

pub mod compact;
pub mod numbered;
pub mod renumber;
