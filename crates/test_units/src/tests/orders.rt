//! A broker of as many evaluations as a state has at most, whose jobs come in several orders. No
//! order makes its trees deeper than others: a tree as high as its rows ends the test.
use eval_broker::Broker;
use fsm_state::Cluster;
use rows::{
    EntryIndex, EvalId, EvalStatus, Evaluation, Index, JobName, LeaderTerm, NoMemory, Priority,
};
use std::alloc::Global;

// How many evaluations there are.
const MOST: usize = 65_536;

// Names of five digits come in the order of their numbers.
fn job_of(rank: usize) -> Option<JobName> {
    let mut digits = [b'0'; 5];
    let mut rest = rank;
    for digit in digits.iter_mut().rev() {
        *digit = b'0' + (rest % 10) as u8;
        rest /= 10;
    }
    JobName::from_bytes(&digits)
}

// The evaluation that comes at a place, from 0.
fn row_of(place: usize, rank: usize, status: EvalStatus) -> Option<Evaluation> {
    let index = EntryIndex::new((place as u64).saturating_add(1))?;
    Some(Evaluation {
        id: EvalId { index, slot: 0 },
        job: job_of(rank)?,
        priority: Priority::new(50)?,
        status,
        snapshot: Index::ZERO,
    })
}

// The weight of a place in a tree that puts the heavier row above, as the broker's once did.
fn weight(place: usize) -> u64 {
    let mixed = (place as u64).wrapping_mul(0x9E37_79B9_7F4A_7C15);
    let mixed = (mixed ^ (mixed >> 32)).wrapping_mul(0xD6E8_FEB8_6659_FD93);
    mixed ^ (mixed >> 32)
}

// The ranks of all places, so that the heaviest comes last: such a tree is as high as its rows.
fn chosen(alloc: Global) -> Result<Vec<usize>, NoMemory> {
    let mut weighed = Vec::new(alloc);
    let mut ranks = Vec::new(alloc);
    for place in 0..MOST {
        weighed.push((weight(place), place))?;
        ranks.push(0)?;
    }
    weighed.sort()?;
    for (rank, (_, place)) in weighed.iter().enumerate() {
        if let Some(own) = ranks.get_mut(*place) {
            *own = rank;
        }
    }
    Ok(ranks)
}

// The ranks of all places, rising or falling.
fn in_order(alloc: Global, rises: bool) -> Result<Vec<usize>, NoMemory> {
    let mut ranks = Vec::new(alloc);
    for place in 0..MOST {
        ranks.push(if rises { place } else { MOST - 1 - place })?;
    }
    Ok(ranks)
}

// Whether a broker gives out the evaluation of this place next, from 0.
fn gives(broker: &mut Broker, place: u64) -> bool {
    let Some(term) = LeaderTerm::new(1) else {
        return false;
    };
    match broker.next(term, Index::ZERO) {
        Ok(Some(delivery)) => delivery.eval.index.get() == place.saturating_add(1),
        _ => false,
    }
}

// All come in, the first is given out, and each second one is done with. What is left goes with the
// broker.
fn holds_all(alloc: Global, ranks: &[usize]) -> Option<bool> {
    let mut broker = Broker::rebuild(alloc, &Cluster::new(alloc)).ok()?;
    for (place, rank) in ranks.iter().enumerate() {
        let row = row_of(place, *rank, EvalStatus::Pending)?;
        broker.changed(&row).ok()?;
    }
    let first = gives(&mut broker, 0);
    for (place, rank) in ranks.iter().enumerate() {
        if place % 2 == 0 {
            let row = row_of(place, *rank, EvalStatus::Complete)?;
            broker.changed(&row).ok()?;
        }
    }
    Some(first && gives(&mut broker, 1) && gives(&mut broker, 3))
}

#[test]
fn brokers_hold_as_many_in_any_order(rt: HostRuntime) -> Result<(), NoMemory> {
    let alloc = rt.alloc();
    let rising = in_order(alloc, true)?;
    assert!(rt; holds_all(alloc, rising.as_slice()) == Some(true), "rising");
    let falling = in_order(alloc, false)?;
    assert!(rt;
        holds_all(alloc, falling.as_slice()) == Some(true),
        "falling"
    );
    let chosen = chosen(alloc)?;
    assert!(rt; holds_all(alloc, chosen.as_slice()) == Some(true), "chosen");
    Ok(())
}
