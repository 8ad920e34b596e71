// A table of words, each under its own bucket: the pattern for a table by keys. Another key or a further test changes the `if` of the search, and nothing else.
ghost use Rattle.std.specs.Prelude.{◌≡◌, ◌+◌, ◌≤◌, eqb, length};
ghost use Rattle.chains.specs.Links.{link_to, id_in};
ghost use Rattle.chains.specs.Chains.{Linked};
ghost use Rattle.chains.specs.ByWord.{word_bucket, WordTable};

use crate::hash::Hashed;

impl Hashed {
    // Makes the table of the words of `keys`, whose ids are their places.
    pub fn index_words(self, m: &mut [u64], keys: &[u64])
        requires { self.chains.at + self.chains.nb + self.chains.nb + length keys.now ≤ length m.old }
        ensures { WordTable keys.now self.chains.at self.chains.nb m.old m.new (length keys.now) }
    {
        words::zero_part(m, self.chains.at, self.chains.nb + self.chains.nb);
        for (i, key) in keys.iter().enumerate() {
            let b = self.bucket(*key, 0, 0);
            self.chains.enter(m, i, b);
        }
    }

    // The place of the first of `keys` that is `key`.
    pub fn find_word(self, m: &[u64], keys: &[u64], key: u64) -> Option<usize>
        requires { Linked (word_bucket keys.now self.chains.nb) m.now self.chains.at self.chains.nb (length keys.now) }
        ensures { result ≡ id_in (link_to (eqb key) keys.now) }
    {
        let b = self.bucket(key, 0, 0);
        let mut here = self.chains.first(m, b);
        // Stays (plainer): a walk along a chain, whose next place is read from the table.
        while let Some(i) = here {
            if keys[i] == key {
                return Some(i);
            }
            here = self.chains.next(m, i);
        }
        None
    }
}
