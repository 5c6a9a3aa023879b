//! Why nothing is told of a group, or not all of it.
ghost use Rattle.std.specs.Prelude.{◌≡◌};
ghost use Rattle.sim_inspect.specs.declared.fault.InspectError.TheVariants as errors;

use rows::NoMemory;

/// Why nothing is told of a group, or not all of it.
#[derive(Clone, Copy, Debug, PartialEq, Eq)]
pub enum InspectError {
    /// There was no memory: for the text, or for an actor of the run that is played again.
    NoMemory,
    /// There is no such group: it has neither 3 nor 5 servers, or more than 64 nodes.
    Group,
    /// The run has fewer events than that.
    NoSuchEvent,
    /// The output failed.
    Output,
}

impl From<NoMemory> for InspectError {
    ghost from_gives = { λ _ e. e ≡ errors.NoMemory };

    fn from(_e: NoMemory) -> InspectError {
        InspectError::NoMemory
    }
}
