// boundary_closure.rs, `BoundaryClosure`.
ghost use Rattle.std.specs.Prelude.{◌≡◌};
ghost use Rattle.caps.specs.Modes.{mode_from};
ghost use Rattle.caps.specs.Operation.{leaves_open, is_positive};

use refusals::refusal::Refusal;

#[derive(Clone, Copy, PartialEq, Eq)]
pub enum BoundaryClosure {
    // Do not add cap triangles; leave the clipped surface open.
    None,
    // Close the surface as if values outside the box are above the isovalue.
    ClosePositive,
    // Close the surface as if values outside the box are below the isovalue.
    CloseNegative,
}

impl TryFrom<u32> for BoundaryClosure {
    type Error = Refusal;

    ghost try_from_gives = { λ number result. result ≡ mode_from number };

    fn try_from(number: u32) -> Result<Self, Refusal> {
        match number {
            0 => Ok(BoundaryClosure::None),
            1 => Ok(BoundaryClosure::ClosePositive),
            2 => Ok(BoundaryClosure::CloseNegative),
            _ => Err(Refusal::BadNumber),
        }
    }
}

pub fn leaves_open(mode: BoundaryClosure) -> bool
    ensures { result ≡ leaves_open mode }
{
    mode == BoundaryClosure::None
}

pub fn is_positive(mode: BoundaryClosure) -> bool
    ensures { result ≡ is_positive mode }
{
    mode == BoundaryClosure::ClosePositive
}
