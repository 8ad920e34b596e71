// The candidates in the work room, as candidates and caps both make them (document 01, module 5; boundary_closure.rs, `inject_mesh_boundary_edges` and
// `add_aabb_grid_vertices` of `CandidateCapSurface`).
#![tactic(auto)]

pub mod asked;
pub mod surface;
