//! Why not all of the last lines are told.
ghost use Rattle.std.specs.Prelude.{◌≡◌, ◌↔◌, IfErr, IsOk};
ghost use Rattle.sim_ending.specs.declared.fault.EndError.TheVariants as errors;

use rows::NoMemory;
use std::io;

/// Why not all of the last lines are told.
#[derive(Clone, Copy, Debug, PartialEq, Eq)]
pub enum EndError {
    /// There was no memory for the live allocations.
    NoMemory,
    /// The output failed.
    Output,
}

impl From<NoMemory> for EndError {
    ghost from_gives = { λ _ e. e ≡ errors.NoMemory };

    fn from(_e: NoMemory) -> EndError {
        EndError::NoMemory
    }
}

/// What was written, or that the output failed.
pub(crate) fn told(written: io::Result<()>) -> Result<(), EndError>
    ensures ok { IsOk result ↔ IsOk written }
    ensures failed { IfErr result (λ fault. fault ≡ errors.Output) }
{
    match written {
        Ok(()) => Ok(()),
        Err(_) => Err(EndError::Output),
    }
}
