//! Why a run is not played again, or not all is written of it.
ghost use Rattle.std.specs.Prelude.{◌≡◌};
ghost use Rattle.sim_playback.specs.declared.fault.PlaybackError.TheVariants as errors;

use rows::NoMemory;

/// Why a run is not played again, or not all is written of it.
#[derive(Clone, Copy, Debug, PartialEq, Eq)]
pub enum PlaybackError {
    /// There was no memory: for the text, or for an actor of the run that is played again.
    NoMemory,
    /// There is no such group: it has neither 3 nor 5 servers, or more than 64 nodes.
    Group,
    /// The output failed.
    Output,
}

impl From<NoMemory> for PlaybackError {
    ghost from_gives = { λ _ e. e ≡ errors.NoMemory };

    fn from(_e: NoMemory) -> PlaybackError {
        PlaybackError::NoMemory
    }
}
