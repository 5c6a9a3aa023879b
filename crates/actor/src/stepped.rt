//! What became of what came to an actor.
ghost use Rattle.std.specs.Prelude.{◌≡◌};
ghost use Rattle.actor.specs.Answers.{nothing_sent};
ghost use Rattle.actor.specs.Inner.Outcomes.{outcome};

use rows::{Refusal, Sequence};
use server::Outbox;
use std::alloc::Global;
use wire::Frames;

/// What became of what came to an actor that did not refuse it.
#[derive(Clone, Copy, Debug)]
pub enum Stepped {
    /// It took a step.
    Taken,
    /// It found no memory, and crashed: nothing was sent.
    Crashed,
}

/// Room for what a step sends.
pub fn no_output(alloc: Global) -> Outbox
    ensures { result ≡ nothing_sent }
{
    Outbox {
        frames: Frames::new(alloc),
        work: Sequence::new(alloc),
    }
}

/// What became of it: want of memory is a crash, but for one that was to start again, which stays
/// as it was.
#[inline(always)]
pub(crate) fn outcome(done: Result<(), Refusal>, again: bool) -> Result<Stepped, Refusal>
    ensures { result ≡ outcome again done }
{
    match done {
        Ok(()) => Ok(Stepped::Taken),
        Err(cause) => match cause {
            Refusal::NoMemory => {
                if again {
                    Err(Refusal::NoMemory)
                } else {
                    Ok(Stepped::Crashed)
                }
            }
            other => Err(other),
        },
    }
}
