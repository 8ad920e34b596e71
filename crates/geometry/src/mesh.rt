// A mesh as it is handed in: three coordinates a vertex, three vertex numbers a facet.
ghost use Rattle.std.specs.Prelude.{◌≡◌, ◌/◌, length};

#[derive(Clone, Copy)]
pub struct MeshLists<'a> {
    pub vertices: &'a [f64],
    pub facets: &'a [u32],
}

impl MeshLists<'_> {
    pub fn vertex_count(self) -> usize
        ensures { result ≡ length self.entry.vertices.now / 3 }
    {
        self.vertices.len() / 3
    }

    // Stays (plainer): one division each, of another list.
    pub fn facet_count(self) -> usize
        ensures { result ≡ length self.entry.facets.now / 3 }
    {
        self.facets.len() / 3
    }
}
