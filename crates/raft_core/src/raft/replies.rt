//! Answers to what a leader sent. (Raft, extended version 2014, section 5.3, and section 5.4.2.)

ghost use Rattle.std.specs.Prelude.{◌≡◌, ◌^◌, ◌<◌, true, length, max, min, suc, ◌-◌, nat_le, if◌then◌else◌, slice_set, OnOk, OnErr};
ghost use Rattle.raft_model.specs.Rafts.{is_up, term_observed, crashed};
ghost use Rattle.raft_model.specs.Steps.{receives};
ghost use Rattle.raft_model.specs.Messages.{AppendReply as AppendReplyBody};
ghost use Rattle.raft_model.specs.Quorums.{index_at};
ghost use Rattle.raft_core.specs.Inner.Replies.{after_append_reply, next_after, match_after};
ghost use Rattle.raft_core.specs.Inner.Turns.{SameBase};
ghost use Rattle.raft_core.specs.RaftView.{KeepsProjected};
ghost use Rattle.raft_snapshot.specs.Watching.{ShowsStep};

use super::Raft;
use crate::commit::advance;
use crate::release::forget;
use crate::role::Role;
use machine::Machine;
use raft_snapshot::Watch;
use rows::{Index, LeaderTerm, NoMemory, ServerId};
use wire::AppendReply;

/// Another server holds its log up to `at`: its match index is no less, and its next index follows.
/// What is past the leader's last entry counts for nothing.
fn acknowledge(next: &mut [u64], matched: &mut [u64], last: u64, from: ServerId, at: Index)
    requires next_each { from < length next.old }
    requires matched_each { from < length matched.old }
    requires level { index_at matched.old from < 2 ^ 40 }
    ensures next { next.new ≡ if nat_le at last then slice_set next.old from
        (suc (max (index_at matched.old from) at)) else next.old }
    ensures matched { matched.new
        ≡ if nat_le at last then slice_set matched.old from (max (index_at matched.old from) at) else
        matched.old }
{
    let position = from.position();
    if at.get() <= last {
        let level = matched[position].max(at.get());
        matched[position] = level;
        next[position] = level + 1;
    }
}

/// Another server refuses: the leader tries one earlier at least, and no earlier than what that
/// server is known to hold.
fn back_off(next: &mut [u64], matched: &[u64], from: ServerId, at: Index)
    requires next_each { from < length next.old }
    requires matched_each { from < length matched.now }
    requires level { index_at matched.now from < 2 ^ 40 }
    ensures { next.new ≡ slice_set next.old from
        (max (suc (index_at matched.now from)) (min (index_at next.old from - 1) (suc at))) }
{
    let position = from.position();
    let earlier = next[position].saturating_sub(1).min(at.get() + 1);
    next[position] = earlier.max(matched[position] + 1);
}

/// What an answer tells of another server's log.
fn update_progress(
    next: &mut [u64],
    matched: &mut [u64],
    last: u64,
    from: ServerId,
    ok: bool,
    at: Index,
)
    requires next_each { from < length next.old }
    requires matched_each { from < length matched.old }
    requires level { index_at matched.old from < 2 ^ 40 }
    ensures next { next.new ≡ next_after last from ok at next.old matched.old }
    ensures matched { matched.new ≡ match_after last from ok at matched.old }
{
    if ok {
        acknowledge(next, matched, last, from, at);
    } else {
        back_off(next, matched, from, at);
    }
}

impl<M: Machine> Raft<M> {
    /// A leader hears what another server holds, or that it refuses; then its commit index rises.
    #[inline(always)]
    fn record_reply<W: Watch<M>>(
        &mut self,
        from: ServerId,
        ok: bool,
        at: Index,
        watch: &mut W,
    ) -> Result<(), NoMemory>
        requires up { is_up self.old.server.mode ≡ true }
        requires member { from < self.old.size }
        ensures same { SameBase self.old self.new }
        ensures heard { OnOk result (self.new.server
            ≡ after_append_reply self.old.size self.old.me self.old.server from ok at self.old.server.mode) }
        ensures kept { OnOk result (KeepsProjected self.old self.new) }
        ensures seen { OnOk result (ShowsStep M.spec W.sees self.old.base self.old.server
            self.new.server watch.old watch.new) }
        ensures lost { OnErr result (crashed self.new.server ≡ crashed self.old.server) }
    {
        match self.role {
            Role::Follower => Ok(()),
            Role::Candidate => Ok(()),
            Role::Leader => {
                let Some(term) = LeaderTerm::new(self.term.get()) else {
                    unreachable!()
                };
                let last = self.log.last().get();
                update_progress(&mut self.next, &mut self.matched, last, from, ok, at);
                let Some(machine) = &mut self.machine else {
                    unreachable!()
                };
                let commit = self.commit;
                let log = &self.log;
                match advance(machine, self.me, commit, term, log, &self.matched, watch) {
                    Ok(risen) => {
                        self.commit = risen;
                        Ok(())
                    }
                    Err(lacking) => {
                        // The machine may have been brought on in part: the server is down.
                        forget(&mut self.machine);
                        forget(&mut self.projected);
                        Err(lacking)
                    }
                }
            }
        }
    }

    /// An answer to an Append counts where it answers one of this term, and the server leads.
    #[tactic(auto, using(crate::proofs::Keeps::kept_by_view))]
    #[inline(always)]
    pub(super) fn handle_append_reply<W: Watch<M>>(
        &mut self,
        from: ServerId,
        reply: &AppendReply,
        watch: &mut W,
    ) -> Result<(), NoMemory>
        requires up { is_up self.old.server.mode ≡ true }
        requires member { from < self.old.size }
        ensures same { SameBase self.old self.new }
        ensures taken { OnOk result (self.new.server
            ≡ (receives M.spec.noop self.old.size self.old.me
            (term_observed reply.now.term self.old.server) from reply.now.term
            (AppendReplyBody reply.now.asked reply.now.ok reply.now.at)).server) }
        ensures kept { OnOk result (KeepsProjected self.old self.new) }
        ensures seen { OnOk result (ShowsStep M.spec W.sees self.old.base self.old.server
            self.new.server watch.old watch.new) }
        ensures lost { OnErr result (crashed self.new.server ≡ crashed self.old.server) }
    {
        if self.term.get() < reply.term.get() {
            self.observe_term(reply.term);
            return Ok(());
        }
        if reply.asked.get() != self.term.get() {
            return Ok(());
        }
        self.record_reply(from, reply.ok, reply.at, watch)
    }
}
