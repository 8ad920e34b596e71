// The library as C calls it, through yongpham_c: include/yongpham.h says in plain words what each function takes and answers. A function's contract is
// the operation's own, through the documented number and values.
#![tactic(auto)]

mod boundary;
mod boxes;
mod candidates;
mod cap_mesh;
mod clean;
mod clip_mesh;
mod tolerance_of_box;

pub use boundary::yongpham_boundary_components;
pub use candidates::yongpham_candidates;
pub use cap_mesh::yongpham_caps;
pub use clean::yongpham_clean;
pub use clip_mesh::yongpham_clip;
pub use tolerance_of_box::yongpham_tolerance;
