// The corners of a facet among the welded vertices, and the tests of one facet by itself.
ghost use Rattle.std.specs.Prelude.{◌≡◌, ℕ, ◌+◌, ◌*◌, ◌≤◌, ◌<◌, length, get_or};
ghost use Rattle.std.specs.Float.Ieee.{le};
ghost use Rattle.root.specs.Doubles.{◌⊗◌};
ghost use Rattle.geometry.specs.Triangles.{mapped, corners_at};
ghost use Rattle.geometry.specs.Numbers.{mesh_vertices_of};
ghost use Rattle.geometry.specs.Points.{norm2, normal};
ghost use Rattle.geometry.specs.Meshes.{vertex_of};
ghost use Rattle.mesh_filter.specs.Filters.{facet_at, has_repeated_corner, is_flat};
ghost use Rattle.mesh_filter.specs.Room.{corners_key, points_in_room, facets_in_room, Below, CornersNumbered};

use crate::filter::Filter;
use geometry::numbers::MeshVertexId;
use geometry::point::Point;
use geometry::triangle::{MeshTriangle, Triangle3};
use geometry::vertices::{facet_at, vertex_at, vertex_in};
use words::pack_triple;

// Where the welded vertices stand in the work room: the `count` kept ones, by their old numbers, from `kept` on; each old vertex's new number from `numbers` on.
#[derive(Clone, Copy)]
pub struct WeldedAt {
    pub kept: usize,
    pub count: usize,
    pub numbers: usize,
}

impl Filter<'_> {
    // The new numbers of the corners of facet f.
    pub fn corners_of(&self, m: &[u64], f: usize) -> MeshTriangle
        requires f_in_bounds { 3 * f + 2 < length self.now.mesh.facets.now }
        requires by_index { (j : ℕ) → j < length self.now.mesh.facets.now → self.now.welded.numbers + get_or self.now.mesh.facets.now j 0 < length m.now }
        ensures numbers { mesh_vertices_of result ≡ mapped (λ v. get_or m.now (self.now.welded.numbers + v) 0) (corners_at self.now.mesh.facets.now (3 * f)) }
        ensures in_room { f < self.now.n → CornersNumbered self.now.welded self.now.mesh.vertices.now self.now.mesh.facets.now self.now.at self.now.n m.now
            → mesh_vertices_of result ≡ facet_at (facets_in_room self.now.welded self.now.mesh.vertices.now self.now.mesh.facets.now m.now) f }
    {
        let t = facet_at(self.mesh.facets, f);
        let numbers = self.welded.numbers;
        MeshTriangle {
            a: vertex_in(m, numbers + t.a.0),
            b: vertex_in(m, numbers + t.b.0),
            c: vertex_in(m, numbers + t.c.0),
        }
    }

    // The point of the welded vertex v.
    fn welded_point(&self, m: &[u64], v: MeshVertexId) -> Point
        requires v_in_bounds { self.now.welded.kept + v.0 < length m.now }
        requires v_in_bounds_2 { 3 * get_or m.now (self.now.welded.kept + v.0) 0 + 2 < length self.now.mesh.vertices.now }
        ensures { result ≡ vertex_of self.now.mesh.vertices.now (get_or m.now (self.now.welded.kept + v.0) 0) }
    {
        let old = vertex_in(m, self.welded.kept + v.0);
        vertex_at(self.mesh.vertices, old)
    }

    pub fn is_flat(&self, m: &[u64], t: MeshTriangle) -> bool
        requires count_in_bounds { self.now.welded.kept + self.now.welded.count ≤ length m.now }
        requires below { Below self.now.welded.count (mesh_vertices_of t) }
        requires by_index { (k : ℕ) → k < self.now.welded.count → 3 * get_or m.now (self.now.welded.kept + k) 0 + 2 < length self.now.mesh.vertices.now }
        ensures numbers { result ≡ le (norm2 (normal (mapped (λ v. vertex_of self.now.mesh.vertices.now (get_or m.now (self.now.welded.kept + v) 0)) (mesh_vertices_of t))))
            (self.now.eps ⊗ self.now.eps ⊗ (self.now.eps ⊗ self.now.eps)) }
        ensures in_room { result ≡ is_flat self.now.eps (points_in_room self.now.welded self.now.mesh.vertices.now m.now) (mesh_vertices_of t) }
    {
        let corners = Triangle3 {
            a: self.welded_point(m, t.a),
            b: self.welded_point(m, t.b),
            c: self.welded_point(m, t.c),
        };
        let square = self.eps * self.eps;
        corners.normal().norm2() <= square * square
    }
}

#[tactic(auto, unfolding(crate::specs::Filters::has_repeated_corner))]
pub fn has_repeated_corner(t: MeshTriangle) -> bool
    ensures { result ≡ has_repeated_corner (mesh_vertices_of t) }
{
    t.a == t.b || t.b == t.c || t.a == t.c
}

// The three corners in ascending order in one word, so that the same three in any order give the same word.
pub fn corners_key(t: MeshTriangle) -> u64
    requires { Below 2097152 (mesh_vertices_of t) }
    ensures { result ≡ corners_key (mesh_vertices_of t) }
{
    let s = t.sorted_vertices();
    pack_triple(s[0].0 as u64, s[1].0 as u64, s[2].0 as u64)
}
