// What an operation answers. specs/Refusals.antt gives it its documented number and values.
use crate::refusal::Refusal;

// Done: the lengths written, in the order of the outputs, of an operation with N of them.
pub type Reply<const N: usize> = Result<[usize; N], Refusal>;
