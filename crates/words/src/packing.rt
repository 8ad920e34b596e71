// Two numbers below 2^32, or three below 2^21, packed into one word, so that one comparison of words compares them in order.
ghost use Rattle.std.specs.Prelude.{◌≡◌, ◌<◌};
ghost use Rattle.words.specs.Packed.{pair, edge, pair_first, pair_second, triple, triple_first, triple_second, triple_third};

// Stays (plainer), point 5: `a < 4294967296`, `b < 4294967296` of pack_edge and pair_word (cap_pairs) too: parameters of 32 bits would say it, but the numbers are words of the lent room,
// so that each call would cast and prove the same.
pub fn pack_pair(a: u64, b: u64) -> u64
    requires { (a < 4294967296) × (b < 4294967296) }
    ensures { result ≡ pair a b }
{
    a * 4294967296 + b
}

// The two numbers of a pair.
pub fn unpack_pair(key: u64) -> (u64, u64)
    ensures { result ≡ (pair_first key, pair_second key) }
{
    (key / 4294967296, key % 4294967296)
}

// Two ends in either order: the lesser is packed first.
pub fn pack_edge(a: u64, b: u64) -> u64
    requires { (a < 4294967296) × (b < 4294967296) }
    ensures { result ≡ edge a b }
{
    if a <= b {
        pack_pair(a, b)
    } else {
        pack_pair(b, a)
    }
}

pub fn pack_triple(a: u64, b: u64, c: u64) -> u64
    requires { (a < 2097152) × ((b < 2097152) × (c < 2097152)) }
    ensures { result ≡ triple a b c }
{
    (a * 2097152 + b) * 2097152 + c
}

// The three numbers of a triple.
pub fn unpack_triple(key: u64) -> (u64, u64, u64)
    ensures { result ≡ (triple_first key, triple_second key, triple_third key) }
{
    (
        key / 2097152 / 2097152,
        key / 2097152 % 2097152,
        key % 2097152,
    )
}
