// Points and sides in a face's own coordinates.

// The Rust's `[f64; 2]` of a face.
#[derive(Clone, Copy)]
pub struct Uv {
    pub u: f64,
    pub v: f64,
}

// A side of a face, as it runs.
#[derive(Clone, Copy)]
pub struct Side {
    pub start: Uv,
    pub end: Uv,
}
