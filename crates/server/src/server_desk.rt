//! The leader's desk, which watches the log.
ghost use Rattle.std.specs.Prelude.{◌≡◌, None};
ghost use Rattle.machine_model.specs.declared.entry.Entry.{Entry};

use fsm_state::Cluster;
use leader::Desk;
use machine::{Coded, Entry};
use raft_core::Watch;
use rows::{LeaderTerm, NoMemory};
use std::alloc::Global;
use std::marker::Model;

/// The leader's desk. As the leader applies entries, the first one of its own term opens the desk,
/// and an open desk follows each.
#[derive(Drop)]
pub(crate) struct ServerDesk {
    pub(crate) desk: Desk,
}

impl Model for ServerDesk {
    ghost use Rattle.std.specs.Prelude.{Option};
    ghost use Rattle.leader.specs.OpenDesks.{OpenDesk};

    ghost Value = { Option OpenDesk };

    ghost view = { λ d. d.desk };
}

impl ServerDesk {
    /// A closed desk. It takes no memory.
    pub fn closed(alloc: Global) -> ServerDesk
        ensures { result ≡ None }
    {
        ServerDesk {
            desk: Desk::closed(alloc),
        }
    }

    /// Closes; nothing of what it held stays. It takes no memory.
    pub fn clear(&mut self)
        ensures { self.new ≡ None }
    {
        self.desk.clear();
    }
}

impl Watch<Cluster> for ServerDesk {
    ghost use Rattle.server.specs.Inner.DeskWatch.{DeskSees};

    ghost sees = { DeskSees };

    fn see(
        &mut self,
        term: LeaderTerm,
        entry: &Entry<Coded<Cluster>>,
        machine: &Cluster,
    ) -> Result<(), NoMemory> {
        if self.desk.is_open() {
            return self.desk.changed(entry.command.command(), machine);
        }
        if entry.term.get() == term.get() {
            return self.desk.rebuild(machine, term);
        }
        Ok(())
    }
}
