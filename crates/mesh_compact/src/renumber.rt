// Numbers by first use (`compact_kept_facets` of mesh_cleanup.rs). specs/Room.antt says what stands where in m.
// Stays (C interface), point 6: the tables are places in the lent room, since C lends one buffer and there is no heap.
ghost use Rattle.std.specs.Prelude.{◌≡◌, ◌+◌, ◌*◌, ◌≤◌, ◌<◌, length};
ghost use Rattle.geometry.specs.Triangles.{vertices, corners_at};
ghost use Rattle.mesh_compact.specs.Room.{is_large_at, Vertexed, Cornered, Faceted, RenumberRoom, FacetNumbered, NumberedSoFar};

pub use crate::numbered::Numbered;
use geometry::numbers::MeshVertexId;
use geometry::vertices::vertex_in;
use words::zero_part;

// Where renumbering finds and leaves what: the old numbers of the n welded vertices from `kept` on, the corners of the k facets that passed from `facets` on, their components
// from `parts` on; its own tables from `at` on. Facets of components of fewer than `least` are left out.
#[derive(Clone, Copy)]
pub struct Renumbering {
    pub kept: usize,
    pub n: usize,
    pub facets: usize,
    pub k: usize,
    pub parts: usize,
    pub at: usize,
    pub least: u64,
}

impl Renumbering {
    // Gives the welded vertex v a number if this is its first use; how many have one then.
    fn number_vertex(&self, m: &mut [u64], count: usize, v: MeshVertexId) -> usize
        requires v_lt_n { (v.0 < self.now.n) × (self.now.kept + self.now.n ≤ self.now.at) }
        requires count_in_bounds { self.now.at + self.now.n + count < length m.old }
        ensures { Vertexed self.now.kept self.now.at self.now.n count v.0 result m.old m.new }
    {
        if m[self.at + v.0] != 0 {
            return count;
        }
        // Stays (plainer): one word; the library copies parts of a list, and a part of one would have to be named by its two ends.
        m[self.at + self.n + count] = m[self.kept + v.0];
        m[self.at + v.0] = count as u64 + 1;
        count + 1
    }

    // A corner of a kept facet: the welded vertex v.
    fn number_corner(&self, m: &mut [u64], w: Numbered, v: MeshVertexId) -> Numbered
        requires v_lt_n { (v.0 < self.now.n) × (self.now.kept + self.now.n ≤ self.now.at) }
        requires k_in_bounds { self.now.at + self.now.n + 6 * self.now.k ≤ length m.old }
        requires corners_bound { w.corners < 3 * self.now.k }
        ensures { Cornered self.now.kept self.now.at self.now.n self.now.k v.0 w result m.old m.new }
    {
        let vertices = self.number_vertex(m, w.vertices, v);
        m[self.at + self.n + 3 * self.k + w.corners] = m[self.at + v.0] - 1;
        Numbered {
            vertices,
            corners: w.corners + 1,
        }
    }

    // The corners of facet i, which is kept.
    // Stays (plainer), point 5: that i is one of the k facets is asked where it is read; as a type it would be made and taken apart at each call.
    // Stays (plainer), point 5: `RenumberRoom` holds of a room that these functions write; a field for it would be lost at the first word written.
    fn number_facet(&self, m: &mut [u64], mut w: Numbered, i: usize) -> Numbered
        requires i_lt_k { i < self.now.k }
        requires room { RenumberRoom self.now.kept self.now.facets self.now.parts self.now.k self.now.at self.now.n m.old }
        requires corners_bound { w.corners ≤ 3 * i }
        ensures { Faceted self.now.kept self.now.at self.now.n self.now.k (vertices (corners_at m.old (self.now.facets + 3 * i))) w result m.old m.new }
    {
        for j in 0..3 {
            let v = vertex_in(m, self.facets + 3 * i + j);
            w = self.number_corner(m, w, v);
        }
        w
    }

    // Whether the component of facet i has at least `least` facets.
    fn is_large(&self, m: &[u64], i: usize) -> bool
        requires i_lt_k { i < self.now.k }
        requires room { RenumberRoom self.now.kept self.now.facets self.now.parts self.now.k self.now.at self.now.n m.now }
        ensures { result ≡ is_large_at m.now self.now.parts self.now.k self.now.least i }
    {
        let part = m[self.parts + i] as usize;
        m[self.parts + self.k + part] >= self.least
    }

    // Facet i of the k that passed.
    fn number_if_kept(&self, m: &mut [u64], w: Numbered, i: usize) -> Numbered
        requires i_lt_k { i < self.now.k }
        requires room { RenumberRoom self.now.kept self.now.facets self.now.parts self.now.k self.now.at self.now.n m.old }
        requires corners_bound { w.corners ≤ 3 * i }
        ensures { FacetNumbered self.now.kept self.now.facets self.now.parts self.now.k self.now.at self.now.n self.now.least i w result m.old m.new }
    {
        if self.is_large(m, i) {
            self.number_facet(m, w, i)
        } else {
            w
        }
    }

    // Numbers the vertices of the facets that are kept, of the k that passed.
    pub fn renumber(&self, m: &mut [u64]) -> Numbered
        requires { RenumberRoom self.now.kept self.now.facets self.now.parts self.now.k self.now.at self.now.n m.old }
        ensures { NumberedSoFar self.now.kept self.now.facets self.now.parts self.now.k self.now.at self.now.n self.now.least self.now.k result m.old m.new }
    {
        zero_part(m, self.at, self.n);
        let mut w = Numbered::none();
        for i in 0..self.k {
            w = self.number_if_kept(m, w, i);
        }
        w
    }
}
