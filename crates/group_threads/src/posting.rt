//! How often a message is put on its way, and what is put then.
ghost use Rattle.group_threads.specs.Inner.Posting.{ArePut, MayBePutSoOften};

use cells::{Cells, Envelope};
use event_book::BookId;
use lossy_net::Fates;
use std::sync::{Mutex, Wait};

/// How often the next message is put on its way, where `drop` of a hundred are to be lost and
/// `repeat` of a hundred to come twice. Where each is put once whatever its word is, none is drawn.
#[tactic(auto, using(crate::proofs::NetWords::by_word, crate::proofs::NetWords::no_word))]
pub(crate) fn times<R: Wait>(rt: &R, fates: &Mutex<Fates>, drop: u8, repeat: u8) -> u8
    ensures { MayBePutSoOften drop repeat result }
{
    if drop == 0 && repeat == 0 {
        return 1;
    }
    fates.lock(rt).times(drop, repeat)
}

/// A message as often as it is to be put on its way. Where there is no memory for it to come twice,
/// it comes once.
pub(crate) fn copies<B: BookId>(
    cells: &Cells<B>,
    envelope: Envelope<B>,
    times: u8,
) -> (Option<Envelope<B>>, Option<Envelope<B>>)
    ensures { ArePut times envelope result.0 result.1 }
{
    match times {
        0 => (None, None),
        1 => (Some(envelope), None),
        _ => match cells.again(envelope) {
            Ok((one, other)) => (Some(one), Some(other)),
            Err(one) => (Some(one), None),
        },
    }
}
