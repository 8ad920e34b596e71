// "Three numberings are kept apart: mesh vertex, cap candidate, place within a face". Lists hold raw words; a number is wrapped where it is read.

// A vertex of the mesh.
#[derive(Clone, Copy, PartialEq, Eq, PartialOrd, Ord)]
pub struct MeshVertexId(pub usize);

// A candidate for a corner of caps.
#[derive(Clone, Copy, PartialEq, Eq, PartialOrd, Ord)]
pub struct CandidateVertexId(pub usize);

// A place in the list of candidates of one face.
#[derive(Clone, Copy, PartialEq, Eq, PartialOrd, Ord)]
pub struct FacePlace(pub usize);
