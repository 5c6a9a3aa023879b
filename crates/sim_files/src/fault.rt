//! Why a run ends before its last line.
ghost use Rattle.std.specs.Prelude.{◌≡◌, ◌≢◌, ◌≤◌, ◌↔◌, IfErr, IsOk};
ghost use Rattle.sim_files.specs.Faults.{IsStatus};
ghost use Rattle.sim_files.specs.declared.fault.Fault.TheVariants as faults;

use crate::hint::Hint;
use rows::NoMemory;
use sim_ending::EndError;
use std::alloc::{AllocError, AllocFailed};
use std::io;
use thiserror::Error;

/// A fault of the program. Its text is what the standard error is told, with its line's end.
#[derive(Debug, Drop, Error)]
pub enum Fault<'a> {
    /// The words of the command line ask for nothing that the program does; or they ask for its
    /// help.
    #[error("{0}")]
    CommandLine(clap::Error),
    /// The file of this name cannot be read.
    #[error("nomadsim: cannot read {0}\n")]
    CannotRead(&'a str),
    /// The transcript cannot be written to the file of this name.
    #[error("nomadsim: cannot write {0}\n")]
    CannotWrite(&'a str),
    /// The file that was read is no scenario, or one of its steps is none.
    #[error("nomadsim: bad scenario\n")]
    BadScenario,
    /// The file that was read is no transcript: with the place of the first byte of its first line
    /// at fault, from 0, and what was to come there.
    #[error("nomadsim: bad transcript at byte {0}\n")]
    BadTranscript(usize, Hint),
    /// No number of events from 0 to that of the transcript, which this is, was given.
    #[error("nomadsim: --at has to be a whole number from 0 to {0}\n")]
    NoSuchEvent(usize),
    /// No whole number from 1 on was given that makes at most 1,000 lines of a transcript's events,
    /// of which there are so many.
    #[error("nomadsim: --every has to be a whole number, for 1 to 1000 lines of {0} events\n")]
    NoSuchStride(usize),
    /// A server has no room for two more terms or two more entries.
    #[error("nomadsim: a server has no room for two more terms or two more entries\n")]
    NoRoom,
    /// So many of a hundred messages are to be lost, and so many to come again, which is more than a
    /// hundred together.
    #[error("nomadsim: drop {0} and repeat {1} are over 100 together\n")]
    Percentages(u8, u8),
    /// There was no memory.
    #[error("nomadsim: no memory\n")]
    NoMemory,
    /// The standard output failed. Nothing more is said.
    #[error("")]
    Output,
}

impl<'a> From<NoMemory> for Fault<'a> {
    ghost from_gives = { λ _ e. e ≡ faults.NoMemory };

    fn from(_e: NoMemory) -> Fault<'a> {
        Fault::NoMemory
    }
}

impl<'a> From<AllocError> for Fault<'a> {
    ghost from_gives = { λ _ e. e ≡ faults.NoMemory };

    fn from(_e: AllocError) -> Fault<'a> {
        Fault::NoMemory
    }
}

impl<'a, T: Drop> From<AllocFailed<T>> for Fault<'a> {
    ghost from_gives = { λ _ e. e ≡ faults.NoMemory };

    fn from(_e: AllocFailed<T>) -> Fault<'a> {
        Fault::NoMemory
    }
}

impl<'a> From<EndError> for Fault<'a> {
    ghost use Rattle.sim_files.specs.Faults.{IsOfRun, IsPastReading, end_fault};

    ghost from_gives = { λ e fault.
        (fault ≡ end_fault e) × IsOfRun fault × IsPastReading fault };

    fn from(e: EndError) -> Fault<'a> {
        match e {
            EndError::NoMemory => Fault::NoMemory,
            EndError::Output => Fault::Output,
        }
    }
}

impl Fault<'_> {
    /// The exit status of a run that ends by this fault: 0 where help or the version was asked for,
    /// 3 where there was no memory, else 2.
    pub fn status(&self) -> u8
        ensures status { IsStatus self.now result }
        ensures most { result ≤ 3 }
        ensures faulty { result ≢ 1 }
    {
        match self {
            Fault::CommandLine(error) => { if error.use_stderr() { 2 } else { 0 } }
            Fault::CannotRead(_) => 2,
            Fault::CannotWrite(_) => 2,
            Fault::BadScenario => 2,
            Fault::BadTranscript(_, _) => 2,
            Fault::NoSuchEvent(_) => 2,
            Fault::NoSuchStride(_) => 2,
            Fault::NoRoom => 2,
            Fault::Percentages(_, _) => 2,
            Fault::NoMemory => 3,
            Fault::Output => 2,
        }
    }
}

/// What was written, or that the output failed.
pub fn said<'a>(written: io::Result<()>) -> Result<(), Fault<'a>>
    ensures ok { IsOk result ↔ IsOk written }
    ensures failed { IfErr result (λ fault. fault ≡ faults.Output) }
{
    match written {
        Ok(()) => Ok(()),
        Err(_) => Err(Fault::Output),
    }
}
