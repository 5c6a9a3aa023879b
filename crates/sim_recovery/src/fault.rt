//! Why it is not told what brings a group back.
ghost use Rattle.std.specs.Prelude.{◌≡◌};
ghost use Rattle.sim_recovery.specs.declared.fault.RecoveryError.TheVariants as errors;

use rows::NoMemory;

/// Why it is not told what brings a group back.
#[derive(Clone, Copy)]
pub enum RecoveryError {
    /// There was no memory: for the text, or for an actor of the group.
    NoMemory,
    /// There is no such group: it has neither 3 nor 5 servers, or more than 64 nodes.
    Group,
    /// A server has no room for two more terms or two more entries.
    NoRoom,
    /// There would be more rows than are told.
    TooMany,
}

impl From<NoMemory> for RecoveryError {
    ghost from_gives = { λ _ e. e ≡ errors.NoMemory };

    fn from(_e: NoMemory) -> RecoveryError {
        RecoveryError::NoMemory
    }
}
