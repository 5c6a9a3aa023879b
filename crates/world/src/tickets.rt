//! Commands that are proposed to a group, and what is known of them later. (Raft, extended version
//! 2014, section 5.3.)
ghost use Rattle.std.specs.Prelude.{◌≡◌, ◌≢◌, ◌≤◌, Some, List, IfOk, IfErr, IfSome, OnErr};
ghost use Rattle.rows.specs.declared.refusal.Refusal.TheVariants as refusals;
ghost use Rattle.raft_model.specs.Worlds.{World, Proposes};
ghost use Rattle.raft_core.specs.declared.ticket.ProposalStatus.TheVariants as statuses;
ghost use Rattle.world.specs.WorldView.{RunsTo};
ghost use Rattle.world.specs.Steps.{WasDone, SameWorld, RefusesEvent, IsAwake};
ghost use Rattle.world.specs.Tickets.{done_by, proposal_status_in, TicketNow, StoodEver, CommittedEver};

use crate::done::Done;
use crate::event::RaftEvent;
use crate::world::RaftWorld;
use machine::Machine;
use raft_core::{ProposalStatus, Ticket};
use raft_safety::commit_is_final;
use rows::{Refusal, ServerId};

impl<M: Machine> RaftWorld<M> {
    /// A command is proposed to a server, and the ticket says where it stands in that server's log;
    /// none where the server found no memory, and crashed. It is the event `Propose`, refused as
    /// `step` refuses that.
    ///
    /// Whether the command comes to be applied is known later: ask `proposal_status` of any server.
    pub fn propose(
        &mut self,
        server: ServerId,
        command: Box<M::Command>,
    ) -> Result<Option<Ticket>, Refusal>
        ensures ok { IfOk result (λ ticket. WasDone M.spec self.old
            (Proposes server command.value) (done_by ticket) self.new) }
        // It is the last entry of the server's log, in the server's own term.
        ensures ticket { IfOk result (λ ticket. IfSome ticket (λ t.
            TicketNow M.spec self.new server command.value t.index t.term)) }
        ensures stood { IfOk result (λ ticket. IfSome ticket (λ t.
            StoodEver M.spec self.new t.index t.term command.value)) }
        ensures err { OnErr result (SameWorld self.old self.new) }
        ensures cause { IfErr result (λ refusal. refusal ≢ refusals.NoMemory →
            RefusesEvent M.spec self.old (Proposes server command.value) refusal) }
        ensures memory { IfErr result (λ refusal. refusal ≡ refusals.NoMemory →
            IsAwake M.spec self.old (Proposes server command.value)) }
    {
        match self.step(RaftEvent::Propose(server, command)) {
            Err(refusal) => Err(refusal),
            Ok(Done::Crashed) => Ok(None),
            Ok(Done::Taken) => {
                let Some(raft) = self.raft(server) else {
                    unreachable!()
                };
                Ok(Some(Ticket {
                    index: raft.last(),
                    term: raft.term(),
                }))
            }
        }
    }

    /// What a server knows of a command by its ticket; none where the group has no such server, or
    /// it is down.
    ///
    /// - `Committed`: the one list has the command at that index for good, since no other command ever
    ///   stood there in that term.
    /// - `Superseded`: the one list has another entry there for good, of another term, so that the command
    ///   never comes to be applied by this proposal.
    /// - `Compacted`: the one list has an entry there for good, and the server has applied it. Its
    ///   snapshot covers it, so which one that is it does not know; another server may.
    pub fn proposal_status(&self, server: ServerId, ticket: Ticket) -> Option<ProposalStatus>
        ensures value { (past : List (World M.Command)) (w : World M.Command) →
            RunsTo M.spec self.now past w →
            result ≡ proposal_status_in w server ticket.index ticket.term }
        ensures settled { result ≡ Some statuses.Committed →
            CommittedEver M.spec self.now ticket.index (λ t. t ≡ ticket.term) }
        ensures lost { result ≡ Some statuses.Superseded →
            CommittedEver M.spec self.now ticket.index (λ t. t ≢ ticket.term) }
        ensures covered { result ≡ Some statuses.Compacted → 1 ≤ ticket.index →
            CommittedEver M.spec self.now ticket.index (λ t. Unit {0}) }
    {
        self.one_list();
        commit_is_final::<M>();
        self.raft(server)?.proposal_status(ticket)
    }
}
