//! The newest state of a run that was told of.
ghost use Rattle.std.specs.Prelude.{◌≡◌, IfOk, OnOk, Some, option_copied, string_bytes};
ghost use Rattle.sim_tell.specs.Inner.Newest.{mark_of};
ghost use Rattle.sim_tell.specs.Marks.{TellsNewest, first_mark};

use crate::changes::push_rows;
use fsm_state::Cluster;
use rows::{Index, NoMemory};
use server::Server;
use std::alloc::Global;
use std::sync::Arc;

/// The newest state that was told of, and how many entries were applied to it.
#[derive(Drop)]
pub(crate) struct Newest {
    state: Arc<Cluster>,
    applied: Index,
}

impl Newest {
    /// The state before the first entry.
    pub(crate) fn new(alloc: Global) -> Result<Newest, NoMemory>
        ensures { IfOk result (λ newest. mark_of newest ≡ first_mark) }
    {
        Ok(Newest {
            state: Arc::new(alloc, Cluster::new(alloc))?,
            applied: Index::ZERO,
        })
    }

    /// Tells the rows that a server's newly applied entries changed, where nobody has applied them
    /// before.
    pub(crate) fn push_rows(
        &mut self,
        words: &mut String,
        server: Option<&Server>,
    ) -> Result<(), NoMemory>
        ensures { OnOk result (TellsNewest (mark_of self.old) (option_copied server.entry)
            (string_bytes words.old) (mark_of self.new) (string_bytes words.new)) }
    {
        match server {
            Some(server) => self.push_applied(words, server),
            None => Ok(()),
        }
    }

    fn push_applied(&mut self, words: &mut String, server: &Server) -> Result<(), NoMemory>
        ensures { OnOk result (TellsNewest (mark_of self.old) (Some server.now)
            (string_bytes words.old) (mark_of self.new) (string_bytes words.new)) }
    {
        let Some(applied) = server.applied() else {
            return Ok(());
        };
        if applied <= self.applied {
            return Ok(());
        }
        // It is up.
        let Ok((state, _)) = server.snapshot() else {
            return Err(NoMemory);
        };
        push_rows(words, &self.state, &state)?;
        self.state = state;
        self.applied = applied;
        Ok(())
    }
}
