//! What may be given of an output.

ghost use Rattle.std.specs.Prelude.{◌≡◌, ◌∷◌, [], IfOk, map};
ghost use Rattle.rp_events.specs.Events.{exactly, mode_digit, indices_given};
ghost use Rattle.rp_events.specs.Choices.{given_of};

use mask_bytes::OutOfMemory;
use std::alloc::Global;

/// What is given of an output.
#[derive(Clone, Copy, Drop)]
pub(crate) enum Choice<'s> {
    /// Exactly the shares with these indices.
    Exactly(&'s [u8]),
    /// All but one, which the simulator chooses: the shares of one of these sets of indices.
    AllButOne(&'s [Vec<u8>]),
}

impl<'s> Choice<'s> {
    /// The digit of the mode.
    pub(crate) fn digit(self) -> u8
        ensures { result ∷ [] ≡ mode_digit (given_of self.entry) }
    {
        match self {
            Choice::Exactly(_) => b'1',
            Choice::AllButOne(_) => b'2',
        }
    }

    /// The indices that are given.
    pub(crate) fn indices(self) -> &'s [u8]
        ensures { result.now ≡ indices_given (given_of self.entry) }
    {
        match self {
            Choice::Exactly(indices) => indices,
            Choice::AllButOne(_) => &[],
        }
    }
}

/// Exactly the shares of a set, for each of these sets.
pub(crate) fn exact_choices(alloc: Global, sets: &[Vec<u8>]) -> Result<Vec<Choice<'_>>, OutOfMemory>
    ensures { IfOk result (λ choices. map given_of choices.items ≡ map (λ set. exactly set.items) sets.now) }
{
    let mut choices = Vec::new(alloc);
    for set in sets {
        choices.push(Choice::Exactly(set.as_slice()))?;
    }
    Ok(choices)
}
