// The operation boundary components, which takes a vertex count and facets, and writes three lists of words.
ghost use Rattle.lists.specs.Lists.{Decides};
ghost use Rattle.replay.specs.Agreement.{FreshThree, BoundaryStored};

use crate::compare::same_listing;
use crate::record::{CEILING, Request, VERTEX_COUNT};
use yongpham::yongpham_boundary_components;

pub fn boundary_agrees(
    request: Request,
    facets: &[u32],
    work: &mut [u64],
    edges: &mut [u64],
    components: &mut [u64],
    irregular: &mut [u64],
) -> bool
    requires { FreshThree request.words.now work.old edges.old components.old irregular.old }
    ensures { Decides (BoundaryStored request.entry.words.now facets.now) result }
{
    let mut values = [0u64; 4];
    let number = yongpham_boundary_components(
        request.words[VERTEX_COUNT],
        facets,
        request.words[CEILING],
        work,
        edges,
        components,
        irregular,
        &mut values,
    );
    same_listing(request, number, &values, edges, components, irregular, work)
}
