// The edge table.
ghost use Rattle.std.specs.Prelude.{◌≡◌, ◌*◌, ◌%◌, ◌≤◌, length};
ghost use Rattle.edges.specs.Table.{SideRecords, EdgeTable};

use crate::ends::side_key;

// Writes a record for each side, its key and its number, in the order of the sides.
pub fn side_records(facets: &[u32], w: &mut [u64])
    requires { (length facets.now % 3 ≡ 0) × (2 * length facets.now ≤ length w.old) }
    ensures { SideRecords facets.now w.old w.new }
{
    for side in 0..facets.len() {
        let key = side_key(facets, side);
        records::put_record(w, 2 * side, (key, side as u64));
    }
}

// The records of all sides, sorted: those of one pair stand together, in the order of their sides.
pub fn sort_sides(facets: &[u32], w: &mut [u64])
    requires { (length facets.now % 3 ≡ 0) × (4 * length facets.now ≤ length w.old) }
    ensures { EdgeTable facets.now w.old w.new }
{
    side_records(facets, w);
    sorting::sort_records(w, facets.len());
}
