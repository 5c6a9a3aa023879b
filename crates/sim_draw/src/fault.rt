//! Why there is no picture, or only the front of one.
ghost use Rattle.std.specs.Prelude.{◌≡◌};
ghost use Rattle.sim_draw.specs.declared.fault.DrawError.TheVariants as errors;

use rows::NoMemory;

/// Why there is no picture, or only the front of one.
#[derive(Clone, Copy, Debug, PartialEq, Eq)]
pub enum DrawError {
    /// There was no memory: for the picture, or for an actor of the run that is played again.
    NoMemory,
    /// There is no such group: it has neither 3 nor 5 servers, or more than 64 nodes.
    Group,
    /// The output failed.
    Output,
}

impl From<NoMemory> for DrawError {
    ghost from_gives = { λ _ e. e ≡ errors.NoMemory };

    fn from(_e: NoMemory) -> DrawError {
        DrawError::NoMemory
    }
}
