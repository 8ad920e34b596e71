// The hash of three words (specs/Hash.antt). A caller that goes from a key to its neighbours adds to the mixed form instead of mixing anew.
ghost use Rattle.std.specs.Prelude.{◌≤◌, ◌<◌};
ghost use Rattle.chains.specs.Hash.{mixed, Mixes, InBucket};

use crate::links::Chains;

// Each word is cut to its rest first, so that nothing overflows.
pub fn mix(a: u64, b: u64, c: u64) -> u64
    ensures { Mixes a b c result }
{
    a % 4294967291 * 561705629 + b % 4294967291 * 816622479 + c % 4294967291 * 167066315
}

// Chains whose buckets are the hash's.
#[derive(Clone, Copy)]
pub struct Hashed {
    pub chains: Chains,
    pub ghost some: { 0 < chains.nb },
    pub ghost bound: { chains.nb ≤ 4294967296 },
}

impl Hashed {
    // The bucket of a key whose mixed form is s.
    pub fn bucket_at(self, s: u64) -> usize
        ensures { InBucket s self.chains.nb result }
    {
        (s % 4294967291 * self.chains.nb as u64 / 4294967296) as usize
    }

    pub fn bucket(self, a: u64, b: u64, c: u64) -> usize
        ensures { InBucket (mixed a b c) self.chains.nb result }
    {
        self.bucket_at(mix(a, b, c))
    }
}
