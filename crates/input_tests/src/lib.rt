// The tests on what is handed in that the operations share (document 01, the table of refusals): 1 to 4 of lists and numbers, and the need of
// test 7; 5 and the box in `boxes`, 6, 8 and the number of grid points in `grid`.
#![tactic(auto)]

ghost use Rattle.std.specs.Prelude.{◌≡◌, ◌&&◌, ◌||◌, ◌<◌, ◌≤◌, ◌+◌, length};
ghost use Rattle.lists.specs.Lists.{every};
ghost use Rattle.refusals.specs.Refusals.{first_refusal};
ghost use Rattle.input_tests.specs.Front.{ragged, too_many, admitted, bad_index, list_tests, cap_ceiling, in_range, eps_in_range, resolution_in_range, work_need};

use geometry::mesh::MeshLists;
use refusals::refusal::Refusal;

pub mod boxes;
pub mod cuts;
pub mod grid;

// 1, for a list of `of` numbers an item
#[tactic(auto, unfolding(crate::specs::Front::ragged))]
pub fn is_ragged(length: usize, of: usize) -> bool
    requires { 0 < of }
    ensures { result ≡ ragged length of }
{
    length % of != 0
}

// 2, of a list with at most so many items
#[tactic(auto, unfolding(crate::specs::Front::too_many))]
pub fn is_too_many(most: usize, length: usize, of: usize) -> bool
    requires { 0 < of }
    ensures { result ≡ too_many most length of }
{
    most < length / of
}

// A ceiling over 65,536 counts as 65,536.
#[tactic(auto, unfolding(crate::specs::Front::admitted))]
pub fn most_admitted(ceiling: u64) -> usize
    ensures { result ≡ admitted ceiling }
{
    ceiling.min(65536) as usize
}

// 2, of a list of three numbers an item, by the caller's ceiling
fn is_over(ceiling: u64, length: usize) -> bool
    ensures { result ≡ too_many (admitted ceiling) length 3 }
{
    let most = most_admitted(ceiling);
    is_too_many(most, length, 3)
}

// 3
// Stays (plainer): `count` is how many vertices there are, which is no place in `facets`.
#[tactic(auto, unfolding(crate::specs::Front::bad_index))]
pub fn has_bad_index(facets: &[u32], count: usize) -> bool
    ensures { result ≡ bad_index count facets.now }
{
    facets.iter().any(|k| *k as usize >= count)
}

// 1, of all three lists: `caps` is the length of the cap list, 0 where an operation takes none
fn any_ragged(mesh: MeshLists<'_>, caps: usize) -> bool
    ensures { result ≡ (ragged (length mesh.entry.vertices.now) 3 || (ragged (length mesh.entry.facets.now) 3 || ragged caps 4)) }
{
    is_ragged(mesh.vertices.len(), 3) || is_ragged(mesh.facets.len(), 3) || is_ragged(caps, 4)
}

// 2, of all three lists: at most 1,048,576 cap triangles
fn any_too_many(ceiling: u64, mesh: MeshLists<'_>, caps: usize) -> bool
    ensures { result ≡ (too_many (admitted ceiling) (length mesh.entry.vertices.now) 3
        || (too_many (admitted ceiling) (length mesh.entry.facets.now) 3 || too_many cap_ceiling caps 4)) }
{
    is_over(ceiling, mesh.vertices.len())
        || is_over(ceiling, mesh.facets.len())
        || is_too_many(1048576, caps, 4)
}

// 1, 2 and 3, in that order, 2 by the caller's ceiling
#[tactic(auto, using(refusals::proofs::Refusals::holds, refusals::proofs::Refusals::passes, refusals::proofs::Refusals::none_left))]
pub fn check_lists(ceiling: u64, mesh: MeshLists<'_>, caps: usize) -> Result<(), Refusal>
    ensures { result ≡ first_refusal (list_tests ceiling mesh.entry.vertices.now mesh.entry.facets.now caps) }
{
    if any_ragged(mesh, caps) {
        return Err(Refusal::Ragged);
    }
    if any_too_many(ceiling, mesh, caps) {
        return Err(Refusal::TooMany);
    }
    if has_bad_index(mesh.facets, mesh.vertices.len() / 3) {
        return Err(Refusal::BadIndex);
    }
    Ok(())
}

// 4, of one coordinate or box corner: 2^30 is 1073741824
#[tactic(auto, unfolding(crate::specs::Front::in_range))]
pub fn in_range(x: f64) -> bool
    ensures { result ≡ in_range x }
{
    (-1073741824.0..=1073741824.0).contains(&x)
}

// 4, of all coordinates, also those that no facet uses
pub fn all_in_range(vertices: &[f64]) -> bool
    ensures { result ≡ every in_range vertices.now }
{
    vertices.iter().all(|x| in_range(*x))
}

// 4, of eps: -0.0 equals 0 and is accepted
#[tactic(auto, unfolding(crate::specs::Front::eps_in_range))]
pub fn eps_in_range(eps: f64) -> bool
    ensures { result ≡ eps_in_range eps }
{
    (0.0..=1.0).contains(&eps)
}

// 4, of a resolution: -0.0 is not above 0
#[tactic(auto, unfolding(crate::specs::Front::resolution_in_range))]
pub fn resolution_in_range(resolution: f64) -> bool
    ensures { result ≡ resolution_in_range resolution }
{
    resolution > 0.0 && resolution <= 1073741824.0
}

// 7: the counts are within their ceilings, so nothing wraps
#[tactic(auto, unfolding(crate::specs::Front::work_need))]
pub fn work_need(vertices: usize, facets: usize, caps: usize, grid: usize) -> usize
    requires { vertices + facets + caps + grid ≤ 4294967296 }
    ensures { result ≡ work_need vertices facets caps grid }
{
    128 * (vertices + facets + caps + grid) + 1024
}
