// Where the tables stand in the work room, for at most n candidates (vertices and grid points) and nf facets. In words:
//   0                     8         the lengths of the six face lists, the number of candidates, one unused
//   8                     5 n       candidates, as they are written out: point, mesh vertex + 1 or 0, faces
//   8 + 5 n               3 n       their keys
//   8 + 8 n               3 n       bucket chains by key: n heads, n tails, n nexts
//   8 + 11 n              6 n       the six face lists, n each
//   8 + 17 n              n         of a mesh vertex the candidate that it became part of + 1, or 0 while it was not inserted
//   8 + 18 n              n         of a candidate its place in the list of the face worked on
//   8 + 19 n              4 n       places along a side: records (order of t, place), and the sort's scratch
//   8 + 23 n              16 n + 12 nf   pairs of places of the face worked on: records (packed, 0), and the sort's scratch
//   8 + 39 n + 12 nf      24 n + 18 nf   constraints of all faces, packed
//   8 + 63 n + 30 nf      9 nf      open edges: two candidates and the faces that they are listed with
//   8 + 63 n + 39 nf      15 nf     segments of the face worked on: four coordinates and a bound
//   8 + 63 n + 54 nf      12 nf     the edge table
// In all 8 + 63 (vertices + G) + 66 facets, of the 128 (vertices + facets + G) + 1,024 that are lent.
ghost use Rattle.std.specs.Prelude.{◌≡◌, ◌<◌};
ghost use Rattle.geometry.specs.Boxes.{face_of};
ghost use Rattle.candidate_pool.specs.Offsets.{entry_at, keys_at, chain_at, list_at, joined_at, places_at, side_at, pairs_at, constraints_at, open_edges_at, segments_at, edge_table_at, room_end};

use geometry::face::BoxFace;
use geometry::numbers::CandidateVertexId;

pub fn entry_at(id: CandidateVertexId) -> usize
    requires { entry_at id.0 < 18446744073709551616 }
    ensures { result ≡ entry_at id.0 }
{
    8 + 5 * id.0
}

// The room of at most n candidates and nf facets.
#[derive(Clone, Copy)]
pub struct Room {
    pub n: usize,
    pub nf: usize,
    ghost small: { (n < 268435456) × (nf < 268435456) },
}

// Stays (plainer): each method is another table's place and each number there another one; one function of a table would be a match over these same lines.
impl Room {
    pub fn keys_at(self) -> usize
        ensures { result ≡ keys_at self.n }
    {
        8 + 5 * self.n
    }

    pub fn chain_at(self) -> usize
        ensures { result ≡ chain_at self.n }
    {
        8 + 8 * self.n
    }

    pub fn list_at(self, face: BoxFace) -> usize
        ensures { result ≡ list_at self.n (face_of face) }
    {
        8 + 11 * self.n + face.index() * self.n
    }

    pub fn joined_at(self) -> usize
        ensures { result ≡ joined_at self.n }
    {
        8 + 17 * self.n
    }

    pub fn places_at(self) -> usize
        ensures { result ≡ places_at self.n }
    {
        8 + 18 * self.n
    }

    pub fn side_at(self) -> usize
        ensures { result ≡ side_at self.n }
    {
        8 + 19 * self.n
    }

    pub fn pairs_at(self) -> usize
        ensures { result ≡ pairs_at self.n }
    {
        8 + 23 * self.n
    }

    pub fn constraints_at(self) -> usize
        ensures { result ≡ constraints_at self.n self.nf }
    {
        8 + 39 * self.n + 12 * self.nf
    }

    pub fn open_edges_at(self) -> usize
        ensures { result ≡ open_edges_at self.n self.nf }
    {
        8 + 63 * self.n + 30 * self.nf
    }

    pub fn segments_at(self) -> usize
        ensures { result ≡ segments_at self.n self.nf }
    {
        8 + 63 * self.n + 39 * self.nf
    }

    pub fn edge_table_at(self) -> usize
        ensures { result ≡ edge_table_at self.n self.nf }
    {
        8 + 63 * self.n + 54 * self.nf
    }

    pub fn end(self) -> usize
        ensures { result ≡ room_end self.n self.nf }
    {
        8 + 63 * self.n + 66 * self.nf
    }
}
