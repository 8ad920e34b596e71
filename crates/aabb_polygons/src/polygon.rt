// aabb_clipping.rs: Sutherland and Hodgman's clipping of one polygon. Snapping twice is snapping once, so a corner is snapped once: after the
// first plane, or where it is made. Later planes leave the corners that stay as they are.
ghost use Rattle.std.specs.Prelude.{◌≡◌, ◌+◌, ◌<◌, ◌≤◌, cond, List, [], ◌∷◌, ◌++◌, map, length, take};
ghost use Rattle.geometry.specs.declared.point.Point.{Point as Corner};
ghost use Rattle.geometry.specs.Boxes.{face_of, faces};
ghost use Rattle.aabb_planes.specs.Planes.{inside, snapped};
ghost use Rattle.aabb_polygons.specs.Polygons.{clip_to_plane, clip_polygon};
ghost use Rattle.aabb_polygons.specs.Steps.{side_crossed, side_unsnapped, clip_unsnapped};

use aabb_planes::clip::Clip;
use aabb_planes::crossing::interpolate_points;
use geometry::face::{BOX_FACES, BoxFace};
use geometry::point::Point;
use geometry::triangle::Triangle3;
use std::marker::Model;

// A polygon of at most 28 corners: the tests allow 3, 4, 6, 9, 13, 19 and 28 after each plane.
#[derive(Drop)]
pub struct Polygon {
    corners: [Point; 28],
    count: usize,
}

impl Model for Polygon {
    ghost Value = { List Corner };

    ghost view = { λ p. take p.count p.corners };

    ghost invariant = { λ p. (p.count ≤ 28) × (length p.corners ≡ 28) };
}

impl Polygon {
    pub fn new() -> Polygon
        ensures { result ≡ [] }
    {
        let origin = Point {
            x: 0.0,
            y: 0.0,
            z: 0.0,
        };
        Polygon {
            corners: [origin; 28],
            count: 0,
        }
    }

    pub fn corners(&self) -> &[Point]
        ensures all { result.now ≡ self.now }
        ensures few { length result.now ≤ 28 }
    {
        &self.corners[..self.count]
    }

    fn len(&self) -> usize
        ensures { result ≡ length self.now }
    {
        self.count
    }

    fn clear(&mut self)
        ensures { self.new ≡ [] }
    {
        self.count = 0;
    }

    // Public, so that a polygon of any corners can be built.
    pub fn push(&mut self, p: Point)
        requires { length self.old < 28 }
        ensures { self.new ≡ self.old ++ p ∷ [] }
    {
        self.corners[self.count] = p;
        self.count += 1;
    }

    // Not inlined, so that `clip_to_plane` stays small enough to be.
    // Stays (C interface): corner by corner, and not by the library's `copy_from_slice`, which calls `memmove`: the archive for C asks for nothing from outside but `memset`.
    #[inline(never)]
    fn copy_from(&mut self, other: &Polygon)
        ensures { self.new ≡ other.now }
    {
        self.clear();
        let corners = other.corners();
        for p in corners {
            self.push(*p);
        }
    }

    // `snap_near_bbox` of each corner
    fn snap(&mut self, clip: Clip)
        ensures { self.new ≡ map (snapped clip.extents clip.eps) self.old }
    {
        let n = self.count;
        for p in &mut self.corners[..n] {
            *p = clip.snap_near_bbox(*p);
        }
    }

    // The crossing of a side.
    fn add_crossing(&mut self, prev: Point, curr: Point, plane: BoxFace, clip: Clip)
        requires { length self.old + length (side_crossed clip.extents clip.eps (face_of plane) prev curr) ≤ 28 }
        ensures { self.new ≡ self.old ++ side_crossed clip.extents clip.eps (face_of plane) prev curr }
    {
        if let Some(t) = clip.segment_plane_t(prev, curr, plane) {
            let crossed = clip.snap_to_plane(interpolate_points(prev, curr, t), plane);
            self.push(clip.snap_near_bbox(crossed));
        }
    }

    // What one side adds: a crossing, unless both ends are inside or both outside; and an inside corner, as it is. Answers whether the corner is
    // inside, so that the next side need not ask again.
    // Stays (plainer): `prev_inside` is what was answered of the side before, and no step to choose.
    #[inline(always)]
    fn add_side(
        &mut self,
        prev: Point,
        prev_inside: bool,
        curr: Point,
        plane: BoxFace,
        clip: Clip,
    ) -> bool
        requires room { length self.old + length (side_unsnapped clip.extents clip.eps (face_of plane) prev curr) ≤ 28 }
        requires prev { prev_inside ≡ inside clip.extents clip.eps (face_of plane) prev }
        ensures corners { self.new ≡ self.old ++ side_unsnapped clip.extents clip.eps (face_of plane) prev curr }
        ensures curr { result ≡ inside clip.extents clip.eps (face_of plane) curr }
    {
        let curr_inside = clip.point_inside_plane(curr, plane);
        if curr_inside != prev_inside {
            self.add_crossing(prev, curr, plane, clip);
        }
        if curr_inside {
            self.push(curr);
        }
        curr_inside
    }

    // "Walk from the last corner", into `out`. Not inlined, so that what asks first whether the plane cuts at all is small enough to be inlined at
    // each plane.
    #[inline(never)]
    fn walk_sides(&self, plane: BoxFace, clip: Clip, out: &mut Polygon)
        requires { (0 < length self.now) × (length self.now ≤ 19) }
        ensures { out.new ≡ clip_unsnapped clip.extents clip.eps (face_of plane) self.now }
    {
        out.clear();
        let corners = self.corners();
        let mut prev = corners[corners.len() - 1];
        let mut prev_inside = clip.point_inside_plane(prev, plane);
        for curr in corners {
            prev_inside = out.add_side(prev, prev_inside, *curr, plane, clip);
            prev = *curr;
        }
    }

    // `clip_polygon_to_plane`, but that a corner that stays is not snapped. `spare` is scratch: its contents count for nothing.
    #[inline(always)]
    pub fn clip_to_plane(&mut self, plane: BoxFace, clip: Clip, spare: &mut Polygon)
        requires { (0 < length self.old) × (length self.old ≤ 19) }
        ensures unsnapped { self.new ≡ clip_unsnapped clip.extents clip.eps (face_of plane) self.old }
        ensures if_snapped { map (snapped clip.extents clip.eps) self.old ≡ self.old → self.new ≡ clip_to_plane clip.extents clip.eps self.old (face_of plane) }
    {
        let corners = self.corners();
        if corners.iter().all(|p| clip.point_inside_plane(*p, plane)) {
            return;
        }
        if !corners.iter().any(|p| clip.point_inside_plane(*p, plane)) {
            self.clear();
            return;
        }
        self.walk_sides(plane, clip, spare);
        self.copy_from(spare);
    }

    // A facet against all six planes, "in face order, stopping under three corners".
    pub fn clip_triangle(&mut self, facet: Triangle3, clip: Clip, spare: &mut Polygon)
        ensures clipped { self.new ≡ clip_polygon clip.extents clip.eps faces (facet.a ∷ facet.b ∷ facet.c ∷ []) }
        ensures at_most { length self.new ≤ 28 }
    {
        self.clear();
        self.push(facet.a);
        self.push(facet.b);
        self.push(facet.c);
        self.clip_to_plane(BoxFace::XMin, clip, spare);
        self.snap(clip);
        for plane in &BOX_FACES[1..] {
            if self.len() < 3 {
                return;
            }
            self.clip_to_plane(*plane, clip, spare);
        }
    }
}
