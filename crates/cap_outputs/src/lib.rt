// What caps writes out: the mesh as it came, or closed (document 01, test 12 and module 6).
#![tactic(auto)]

pub mod outputs;
