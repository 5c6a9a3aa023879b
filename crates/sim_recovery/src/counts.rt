//! How many events bring a group back, by their kinds.
ghost use Rattle.std.specs.Prelude.{◌≡◌, count_by};
ghost use Rattle.group_inputs.specs.Events.{group_event, group_events, server_input};
ghost use Rattle.group_inputs.specs.Handings.{handing};
ghost use Rattle.sim_recovery.specs.Steps.{AreCounts, is_delivery, is_input_of, is_of};

use group_inputs::{Event, ServerInput};

/// A kind of events.
#[derive(Clone, Copy)]
pub enum Kind {
    /// A server that is down starts again.
    Restart,
    /// A server stands for election.
    Timeout,
    /// A leader sends what the others lack.
    Beat,
    /// A message comes.
    Message,
}

/// How many events there are, by their kinds.
#[derive(Clone, Copy)]
pub struct Counts {
    /// Restarts of servers.
    pub restarts: usize,
    /// Timeouts.
    pub timeouts: usize,
    /// Beats.
    pub beats: usize,
    /// Messages that came.
    pub messages: usize,
    /// All events.
    pub events: usize,
}

fn is_delivery(kind: Kind) -> bool
    ensures { result ≡ is_delivery kind }
{
    matches!(kind, Kind::Message)
}

// Whether an input of a server is of a kind.
fn is_input_of(kind: Kind, input: &ServerInput) -> bool
    ensures { result ≡ is_input_of kind (server_input (handing input.now)) }
{
    match kind {
        Kind::Restart => matches!(input, ServerInput::Restart),
        Kind::Timeout => matches!(input, ServerInput::Timeout),
        Kind::Beat => matches!(input, ServerInput::Beat),
        Kind::Message => false,
    }
}

// Whether an event is of a kind.
fn is_of(kind: Kind, event: &Event) -> bool
    ensures { result ≡ is_of kind (group_event event.now) }
{
    match event {
        Event::Deliver(_) => is_delivery(kind),
        Event::Server(_, input) => is_input_of(kind, input.as_ref()),
        Event::Client(_, _) => false,
    }
}

// How many of these events are of a kind.
fn count_of(kind: Kind, events: &[Event]) -> usize
    ensures { result ≡ count_by (is_of kind) (group_events events.now) }
{
    events.iter().filter(|event| is_of(kind, event)).count()
}

/// How many of each kind these events are.
pub(crate) fn counts_of(events: &[Event]) -> Counts
    ensures { AreCounts (group_events events.now) result }
{
    Counts {
        restarts: count_of(Kind::Restart, events),
        timeouts: count_of(Kind::Timeout, events),
        beats: count_of(Kind::Beat, events),
        messages: count_of(Kind::Message, events),
        events: events.len(),
    }
}
