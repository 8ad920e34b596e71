// The operations, by the numbers that a stored request has for them.
ghost use Rattle.std.specs.Prelude.{◌≡◌, Some};
ghost use Rattle.replay.specs.Operations.{Names, name_of};

use std::fmt;

#[derive(Clone, Copy, PartialEq, Eq)]
pub enum Operation {
    Tolerance,
    Clip,
    Clean,
    Candidates,
    Caps,
    BoundaryComponents,
}

// In the order of their numbers.
pub const OPERATIONS: [Operation; 6] = [
    Operation::Tolerance,
    Operation::Clip,
    Operation::Clean,
    Operation::Candidates,
    Operation::Caps,
    Operation::BoundaryComponents,
];

// The number is no operation's.
#[derive(Clone, Copy)]
pub struct NoOperation;

impl TryFrom<u64> for Operation {
    type Error = NoOperation;

    ghost try_from_gives = { Names };

    fn try_from(number: u64) -> Result<Self, NoOperation> {
        match number {
            1 => Ok(Operation::Tolerance),
            2 => Ok(Operation::Clip),
            3 => Ok(Operation::Clean),
            4 => Ok(Operation::Candidates),
            5 => Ok(Operation::Caps),
            6 => Ok(Operation::BoundaryComponents),
            _ => Err(NoOperation),
        }
    }
}

impl Operation {
    fn name(self) -> &'static str
        ensures { result.now ≡ name_of self }
    {
        match self {
            Operation::Tolerance => "tolerance",
            Operation::Clip => "clip",
            Operation::Clean => "clean",
            Operation::Candidates => "candidates",
            Operation::Caps => "caps",
            Operation::BoundaryComponents => "boundary_components",
        }
    }
}

impl fmt::Display for Operation {
    ghost output = { λ o. Some (name_of o) };

    fn fmt<W: fmt::Write>(&self, f: &mut fmt::Formatter<W>) -> fmt::Result {
        f.write_str(self.name())
    }
}
