//! A whole group, driven by its servers.
ghost use Rattle.std.specs.Prelude.{◌≡◌, IfOk};
ghost use Rattle.group_inputs.specs.Events.{group_event};
ghost use Rattle.recovery.specs.Inner.Kinds.{HasNumber, group_event_of};

use crate::calm_event::CalmEvent;
use crate::driven::Driven;
use crate::unsettled::Unsettled;
use fsm_state::Cluster;
use group_inputs::{Event, ServerInput};
use raft_core::Raft;
use rows::{Actor, NoMemory, Refusal, ServerId};
use std::alloc::Global;
use world::{Done, World};

/// The event of a group.
fn own_event(alloc: Global, event: CalmEvent) -> Result<Event, NoMemory>
    requires { HasNumber event }
    ensures { IfOk result (λ own. group_event own ≡ group_event_of event) }
{
    match event {
        CalmEvent::Deliver(place) => Ok(Event::Deliver(place as u64 + 1)),
        CalmEvent::Timeout(server) => Event::server(alloc, server, ServerInput::Timeout),
        CalmEvent::Beat(server) => Event::server(alloc, server, ServerInput::Beat),
    }
}

impl Driven for World {
    type Of = Cluster;

    type With = Global;

    ghost use Rattle.recovery.specs.Inner.Kinds.{group_drive};
    ghost use Rattle.recovery.specs.Inner.DownServers.{group_restarting};

    ghost drive = { group_drive };

    ghost restarting = { group_restarting };

    fn has_run(&self) {
        self.one_list();
        self.size_is_3_or_5();
        let _ = self.clients();
    }

    fn members(&self) -> usize {
        self.size()
    }

    fn sent_count(&self) -> usize {
        self.sent().len()
    }

    fn log_of(&self, server: ServerId) -> Option<&Raft<Cluster>> {
        match self.server(server) {
            Some(server) => Some(server.raft()),
            None => None,
        }
    }

    fn addressee(&self, place: usize) -> Option<ServerId> {
        match self.sent().get(place) {
            Some(frame) => match frame.to() {
                Actor::Server(server) => Some(server),
                Actor::Client(_) => None,
            },
            None => None,
        }
    }

    fn let_happen(
        &mut self,
        with: &Global,
        event: CalmEvent,
        server: ServerId,
    ) -> Result<(), Unsettled> {
        let _count = self.sent().len();
        let Ok(own) = own_event(*with, event) else {
            return Err(Unsettled::NoMemory);
        };
        match self.step(own) {
            Ok(done) => match done {
                Done::Taken => Ok(()),
                Done::Crashed => Err(Unsettled::Crashed(server)),
            },
            Err(refusal) => match refusal {
                Refusal::NoMemory => Err(Unsettled::NoMemory),
                _ => unreachable!(),
            },
        }
    }

    fn restart(&mut self, with: &Global, who: ServerId) -> Result<(), Unsettled> {
        match Event::server(*with, who, ServerInput::Restart) {
            Ok(event) => match self.step(event) {
                Ok(done) => match done {
                    Done::Taken => Ok(()),
                    Done::Crashed => Err(Unsettled::Crashed(who)),
                },
                Err(refusal) => match refusal {
                    Refusal::NoMemory => Err(Unsettled::NoMemory),
                    _ => unreachable!(),
                },
            },
            Err(_) => Err(Unsettled::NoMemory),
        }
    }
}
