// Stays (C interface), point 6: labels and components stand at places of the one room that C lends, and there is no heap.
// The labels by which triangles are joined, and their components.
ghost use Rattle.std.specs.Prelude.{◌≡◌, ◌+◌, ◌*◌, ◌<◌, length};
ghost use Rattle.cap_triangles.specs.Room.{up_at, down_at};
ghost use Rattle.cap_selection.specs.Steps.{open_in, label_in, SidesNumbered, Labelled, JoinedCaps};

use cap_triangles::room::CapRoom;
use components::components;

#[tactic(auto, unfolding(crate::specs::Steps::open_in))]
fn is_open_pair(w: &[u64], room: CapRoom, pair: usize) -> bool
    requires { (up_at room.n room.nf room.nc + pair < length w.now) × (down_at room.n room.nf room.nc + pair < length w.now) }
    ensures { result ≡ open_in room.n room.nf room.nc w.now pair }
{
    w[room.up_at() + pair] != 0 || w[room.down_at() + pair] != 0
}

// A side's label is its pair's number; on an open edge it has one of its own, so that it joins nothing.
fn side_label(w: &[u64], room: CapRoom, s: usize) -> u64
    requires { SidesNumbered room.n room.nf room.nc room.k w.now × (s < 3 * room.nc) }
    ensures { result ≡ label_in room.n room.nf room.nc room.k w.now s }
{
    let pair = w[room.numbers_at() + room.k + s];
    let own = (room.k + 3 * room.nc + s) as u64;
    if is_open_pair(w, room, pair as usize) {
        own
    } else {
        pair
    }
}

fn put_labels(w: &mut [u64], room: CapRoom)
    requires { SidesNumbered room.n room.nf room.nc room.k w.old }
    ensures { Labelled room.n room.nf room.nc room.k w.old w.new }
{
    let labels = room.labels_at();
    for s in 0..3 * room.nc {
        w[labels + s] = side_label(w, room, s);
    }
}

// The components of the triangles that are joined by shared edges, none an open one.
pub fn join_caps(w: &mut [u64], room: CapRoom)
    requires { SidesNumbered room.n room.nf room.nc room.k w.old }
    ensures { JoinedCaps room.n room.nf room.nc room.k w.old w.new }
{
    put_labels(w, room);
    let (front, table) = w.split_at_mut(room.components_at());
    let labels = room.labels_at();
    components(
        table,
        &front[labels..labels + 3 * room.nc],
        3,
        room.k + 6 * room.nc,
    );
}
