//! Which server a client asks.
use rows::{Refusal, ServerId};
use timers::ClientDue;
use wire::Kind;

/// After so many turns of asking without a list, all servers are asked again.
const MOST_UNANSWERED: u8 = 3;

/// The number of the refusal of a server that does not lead, which may tell who does.
const NOT_LEADER: u8 = 2;

/// The server that leads, as far as is known, and how often it was asked for a list since it last
/// answered. A server that follows lists too, but takes no heartbeat. Where none is known, or it
/// does not answer for a few turns, all are asked.
#[derive(Drop)]
pub struct Asking {
    leader: Option<ServerId>,
    unanswered: u8,
}

/// Whether a list is to be asked for.
fn asks_list(due: &[ClientDue]) -> bool {
    for what in due {
        if let ClientDue::Pull = what {
            return true;
        }
    }
    false
}

/// Whether both are the same server.
fn is_same(one: &Option<ServerId>, other: &Option<ServerId>) -> bool {
    match (one, other) {
        (Some(one), Some(other)) => one.number() == other.number(),
        _ => false,
    }
}

impl Asking {
    /// None is known to lead.
    pub fn new() -> Asking {
        Asking {
            leader: None,
            unanswered: 0,
        }
    }

    /// A frame came, which the agent refused or took: its third byte is the server that sent it.
    pub fn note(&mut self, told: &Option<Refusal>, frame: &[u8]) {
        if told.is_some() || frame.len() < 3 {
            return;
        }
        let sender = ServerId::from_number(frame[2]);
        if frame[1] == Kind::List.number() {
            if is_same(&sender, &self.leader) {
                self.unanswered = 0;
            }
        } else if frame[1] == Kind::Told.number() && frame.len() == 11 {
            self.note_told(sender, frame[9], frame[10]);
        }
    }

    /// A server tells whether it takes what it was asked: 0, or the number of a refusal, and the
    /// leader that it knows.
    fn note_told(&mut self, sender: Option<ServerId>, number: u8, leader: u8) {
        if number == 0 {
            self.leader = sender;
            self.unanswered = 0;
        } else if number == NOT_LEADER {
            self.leader = ServerId::from_number(leader);
            self.unanswered = 0;
        }
    }

    /// The server that is asked for what is due; none, where all of them are.
    pub fn server(&mut self, due: &[ClientDue]) -> Option<ServerId> {
        if asks_list(due) {
            self.unanswered = self.unanswered.saturating_add(1);
            if self.unanswered > MOST_UNANSWERED {
                self.leader = None;
            }
        }
        self.leader
    }
}
