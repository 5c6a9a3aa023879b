//! One row, where memory may be refused from outside at any request. Each answer is judged, and what
//! it left; the tests pass whatever was refused, and else say what does not hold.

mod group;
mod posts;
mod row;
mod shown;
mod stop;
mod turns;

use group::play_group;
use posts::play_posts;
use row::row;
use std::test::*;
use stop::Stop;
use turns::play_turns;

// What is wrong, if anything is. Where what judges finds no memory, nothing is left to judge.
fn wrong(came: Result<(), Stop>) -> Option<&'static str> {
    match came {
        Ok(()) | Err(Stop::NoMemory) => None,
        Err(stop) => Some(stop.word()),
    }
}

#[test]
fn a_starved_group_holds(rt: HostRuntime) {
    let mut at = 0;
    let wrong = wrong(play_group(rt.alloc(), row(rt.alloc()), &mut at));
    assert!(rt; wrong.is_none(), "event {at}: {}", wrong.unwrap_or(""));
}

#[test]
fn starved_cells_hold(rt: HostRuntime) {
    let mut at = 0;
    let wrong = wrong(play_turns(&rt, rt.alloc(), row(rt.alloc()), &mut at));
    assert!(rt; wrong.is_none(), "event {at}: {}", wrong.unwrap_or(""));
}

#[test]
fn starved_messages_are_counted(rt: HostRuntime) {
    let wrong = wrong(play_posts(&rt, rt.alloc()));
    assert!(rt; wrong.is_none(), "{}", wrong.unwrap_or(""));
}
