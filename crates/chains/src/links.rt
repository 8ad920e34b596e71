// The table stands in the buffer from `at` on: nb heads, nb tails, and a next for each id (specs/Chains.antt). Cleared heads and tails are the table of no id.
// A head, a tail and a next are links, words of the lent buffer: 0 for none, else the id and 1. What a link says is answered as an `Option`.
// Stays (plainer), point 6: a bucket and an id are numbers of the table, and no length of the buffer.
ghost use Rattle.std.specs.Prelude.{◌≡◌, ◌+◌, ◌≤◌, ◌<◌, ◌^◌, length, get_or};
ghost use Rattle.chains.specs.Links.{id_in};
ghost use Rattle.chains.specs.Chains.{link_place, linked_in};

// Where the chains of nb buckets stand.
#[derive(Clone, Copy)]
pub struct Chains {
    pub at: usize,
    pub nb: usize,
}

// The id behind a link.
fn id_in(link: u64) -> Option<usize>
    ensures { result ≡ id_in link }
{
    if link == 0 {
        None
    } else {
        Some((link - 1) as usize)
    }
}

impl Chains {
    // Where a new id of the bucket b is linked, whose tail is t.
    fn link_place(self, b: usize, t: u64) -> usize
        requires b_lt_nb { b < self.nb }
        requires t_bound { self.at + self.nb + self.nb + t < 2 ^ 64 }
        ensures { result ≡ link_place self.at self.nb b t }
    {
        match id_in(t) {
            None => self.at + b,
            Some(last) => self.at + self.nb + self.nb + last,
        }
    }

    // Enters the next id, behind those of its bucket b.
    pub fn enter(self, m: &mut [u64], id: usize, b: usize)
        requires b_lt_nb { b < self.nb }
        requires id_in_bounds { self.at + self.nb + self.nb + id < length m.old }
        requires b_bound { get_or m.old (self.at + self.nb + b) 0 ≤ id }
        ensures { m.new ≡ linked_in m.old self.at self.nb id b }
    {
        let t = m[self.at + self.nb + b];
        let p = self.link_place(b, t);
        let v = id as u64 + 1;
        m[p] = v;
        m[self.at + self.nb + b] = v;
        m[self.at + self.nb + self.nb + id] = 0;
    }

    // The first id of the bucket b.
    pub fn first(self, m: &[u64], b: usize) -> Option<usize>
        requires { self.at + b < length m.now }
        ensures { result ≡ id_in (get_or m.now (self.at + b) 0) }
    {
        id_in(m[self.at + b])
    }

    // The id after `id` in its bucket.
    pub fn next(self, m: &[u64], id: usize) -> Option<usize>
        requires { self.at + self.nb + self.nb + id < length m.now }
        ensures { result ≡ id_in (get_or m.now (self.at + self.nb + self.nb + id) 0) }
    {
        id_in(m[self.at + self.nb + self.nb + id])
    }
}
