// The box: two corners of three doubles. aabb_clipping.rs, `AABB<f64>`.
#[derive(Clone, Copy)]
pub struct AABB {
    pub min_corner: [f64; 3],
    pub max_corner: [f64; 3],
}
