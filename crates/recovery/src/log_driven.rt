//! Servers of the log alone, driven.
ghost use Rattle.std.specs.Prelude.{◌≡◌};
ghost use Rattle.world.specs.Events.{world_event};
ghost use Rattle.recovery.specs.Inner.Kinds.{HasNumber, log_event_of};

use crate::calm_event::CalmEvent;
use crate::driven::Driven;
use crate::unsettled::Unsettled;
use machine::Machine;
use raft_core::Raft;
use rows::{Actor, Refusal, ServerId};
use world::{Done, RaftEvent, RaftWorld};

/// The event of such servers.
fn own_event<M: Machine>(event: CalmEvent) -> RaftEvent<M>
    requires { HasNumber event }
    ensures { world_event result ≡ log_event_of event }
{
    match event {
        CalmEvent::Deliver(place) => RaftEvent::Deliver(place as u64 + 1),
        CalmEvent::Timeout(server) => RaftEvent::Timeout(server),
        CalmEvent::Beat(server) => RaftEvent::Beat(server),
    }
}

impl<M: Machine> Driven for RaftWorld<M> {
    type Of = M;

    type With = ();

    ghost use Rattle.recovery.specs.Inner.Kinds.{log_drive};
    ghost use Rattle.recovery.specs.Inner.DownServers.{log_restarting};

    ghost drive = { log_drive M.spec };

    ghost restarting = { log_restarting M.spec };

    fn has_run(&self) {
        self.one_leader();
        self.size_is_3_or_5();
    }

    fn members(&self) -> usize {
        self.size()
    }

    fn sent_count(&self) -> usize {
        self.sent().len()
    }

    fn log_of(&self, server: ServerId) -> Option<&Raft<M>> {
        self.raft(server)
    }

    fn addressee(&self, place: usize) -> Option<ServerId> {
        match self.sent().get(place) {
            Some(frame) => match frame.to() {
                Actor::Server(server) => Some(server),
                Actor::Client(_) => None,
            },
            None => None,
        }
    }

    fn let_happen(
        &mut self,
        _with: &(),
        event: CalmEvent,
        server: ServerId,
    ) -> Result<(), Unsettled> {
        let _count = self.sent().len();
        match self.step(own_event(event)) {
            Ok(done) => match done {
                Done::Taken => Ok(()),
                Done::Crashed => Err(Unsettled::Crashed(server)),
            },
            Err(refusal) => match refusal {
                Refusal::NoMemory => Err(Unsettled::NoMemory),
                _ => unreachable!(),
            },
        }
    }

    fn restart(&mut self, _with: &(), who: ServerId) -> Result<(), Unsettled> {
        match self.step(RaftEvent::Restart(who)) {
            Ok(done) => match done {
                Done::Taken => Ok(()),
                Done::Crashed => Err(Unsettled::Crashed(who)),
            },
            Err(refusal) => match refusal {
                Refusal::NoMemory => Err(Unsettled::NoMemory),
                _ => unreachable!(),
            },
        }
    }
}
