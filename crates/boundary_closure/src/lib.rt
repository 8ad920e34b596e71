// The operation candidates (document 01, module 5; `cap_mesh_to_aabb` of boundary_closure.rs as far as `build_face_cdts`, which is left to whoever calls).
// What `CandidateCapSurface` does stands in candidate_surface and the candidate crates before it, the tests in closure_tests, the outputs in candidate_outputs.
#![tactic(auto)]

mod front;

pub use front::cap_candidates;
