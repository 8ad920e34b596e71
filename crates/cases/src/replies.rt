// What a reply says.
ghost use Rattle.std.specs.Prelude.{◌≡◌};
ghost use Rattle.refusals.specs.Refusals.{documented_reply};
ghost use Rattle.cases.specs.Comparing.{has_lengths};

use refusals::reply::Reply;

// Done, and these are the first lengths.
#[tactic(auto, unfolding(refusals::specs::Refusals::documented_reply, refusals::specs::Refusals::documented))]
pub fn has_lengths<const N: usize>(reply: Reply<N>, stated: &[usize]) -> bool
    ensures { result ≡ has_lengths (documented_reply reply.entry) stated.now }
{
    match reply {
        Ok(lengths) => lengths.starts_with(stated),
        Err(_) => false,
    }
}
