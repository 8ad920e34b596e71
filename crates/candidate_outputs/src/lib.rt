// What candidates writes out: the four lists (document 01, test 12 and module 5). The Rust, whose `build_face_cdts` triangulates what it has, writes none of them.
#![tactic(auto)]

pub mod outputs;
