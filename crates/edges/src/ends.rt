// A side by its number.
// Stays (plainer), point 6: a side's number is no place beside the slice, but what the functions are of.
ghost use Rattle.std.specs.Prelude.{◌≡◌, ◌<◌, ◌%◌, length, get_or};
ghost use Rattle.geometry.specs.Triangles.{threes};
ghost use Rattle.edges.specs.Edges.{sides};
ghost use Rattle.edges.specs.Table.{next_side, edge_key};

// The side of the same facet that begins where this one ends.
pub fn next_side(side: usize) -> usize
    requires { side < 18446744073709551615 }
    ensures { result ≡ next_side side }
{
    if side % 3 == 2 { side - 2 } else { side + 1 }
}

// Stays (plainer), point 5: `side < length facets` of edge_to and side_key too: each is of one side.
pub fn edge_from(facets: &[u32], side: usize) -> u32
    requires { (length facets.now % 3 ≡ 0) × (side < length facets.now) }
    ensures { result ≡ (get_or (sides (threes facets.now)) side (0, 0)).0 }
{
    facets[side]
}

pub fn edge_to(facets: &[u32], side: usize) -> u32
    requires { (length facets.now % 3 ≡ 0) × (side < length facets.now) }
    ensures { result ≡ (get_or (sides (threes facets.now)) side (0, 0)).1 }
{
    let next = next_side(side);
    facets[next]
}

// Both ends in one word, the same for a side that runs back.
pub fn side_key(facets: &[u32], side: usize) -> u64
    requires { (length facets.now % 3 ≡ 0) × (side < length facets.now) }
    ensures { result ≡ edge_key (get_or (sides (threes facets.now)) side (0, 0)) }
{
    let from = edge_from(facets, side);
    let to = edge_to(facets, side);
    words::pack_edge(from as u64, to as u64)
}
