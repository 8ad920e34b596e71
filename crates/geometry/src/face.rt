// The six faces of the box and its three axes (`BoxFace` of boundary_closure.rs, which is `BoxPlane` of aabb_clipping.rs too).
ghost use Rattle.std.specs.Prelude.{◌≡◌, ◌<◌};
ghost use Rattle.geometry.specs.Boxes.{axis, axis_of, face_of, is_min, plane, Numbered};

use crate::aabb::AABB;

#[derive(Clone, Copy, PartialEq, Eq)]
pub enum Axis {
    X,
    Y,
    Z,
}

pub const AXES: [Axis; 3] = [Axis::X, Axis::Y, Axis::Z];

impl Axis {
    // 0, 1, 2: its place in a corner of the box
    #[inline(always)]
    pub fn index(self) -> usize
        ensures value { result ≡ axis_of self }
        ensures bound { result < 3 }
    {
        self as usize
    }
}

#[derive(Clone, Copy, PartialEq, Eq)]
pub enum BoxFace {
    XMin,
    XMax,
    YMin,
    YMax,
    ZMin,
    ZMax,
}

// "In face order".
pub const BOX_FACES: [BoxFace; 6] = [
    BoxFace::XMin,
    BoxFace::XMax,
    BoxFace::YMin,
    BoxFace::YMax,
    BoxFace::ZMin,
    BoxFace::ZMax,
];

// A number that is no face's.
#[derive(Clone, Copy, PartialEq, Eq)]
pub struct UnknownFace(pub u64);

impl TryFrom<u64> for BoxFace {
    type Error = UnknownFace;

    ghost try_from_gives = { Numbered };

    fn try_from(number: u64) -> Result<Self, UnknownFace> {
        match number {
            0 => Ok(BoxFace::XMin),
            1 => Ok(BoxFace::XMax),
            2 => Ok(BoxFace::YMin),
            3 => Ok(BoxFace::YMax),
            4 => Ok(BoxFace::ZMin),
            5 => Ok(BoxFace::ZMax),
            _ => Err(UnknownFace(number)),
        }
    }
}

impl BoxFace {
    // 0 to 5: its place in face order, its bit in a word of faces, its number for the caller
    #[inline(always)]
    pub fn index(self) -> usize
        ensures value { result ≡ face_of self }
        ensures bound { result < 6 }
    {
        self as usize
    }

    // the axis that it is across
    #[inline(always)]
    pub fn axis(self) -> Axis
        ensures { axis_of result ≡ axis (face_of self) }
    {
        match self {
            BoxFace::XMin | BoxFace::XMax => Axis::X,
            BoxFace::YMin | BoxFace::YMax => Axis::Y,
            BoxFace::ZMin | BoxFace::ZMax => Axis::Z,
        }
    }

    #[inline(always)]
    pub fn is_min(self) -> bool
        ensures { result ≡ is_min (face_of self) }
    {
        matches!(self, BoxFace::XMin | BoxFace::YMin | BoxFace::ZMin)
    }

    // Where it stands on its axis.
    #[inline(always)]
    pub fn place(self, extents: AABB) -> f64
        ensures { result ≡ plane extents (face_of self) }
    {
        match self {
            BoxFace::XMin => extents.min_corner[0],
            BoxFace::XMax => extents.max_corner[0],
            BoxFace::YMin => extents.min_corner[1],
            BoxFace::YMax => extents.max_corner[1],
            BoxFace::ZMin => extents.min_corner[2],
            BoxFace::ZMax => extents.max_corner[2],
        }
    }
}
