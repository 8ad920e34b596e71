// Candidates for the corners of caps and how they are inserted (document 01, module 5; `insert_candidate` of boundary_closure.rs), in one work room.
#![tactic(auto)]

pub mod keys;
pub mod pool;
pub mod room;
