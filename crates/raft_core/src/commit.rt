//! How far a leader's commit index rises. (Raft, extended version 2014, section 5.3, and section
//! 5.4.2.)

ghost use Rattle.std.specs.Prelude.{◌≡◌, ◌≢◌, ◌^◌, ◌<◌, ◌≤◌, ◌⊎◌, ℕ, Bool, List, length, take, drop, IfOk};
ghost use Rattle.raft_model.specs.Quorums.{count, is_quorum, index_at};
ghost use Rattle.raft_model.specs.Rafts.{Raft, Leader, advanced, greatest};
ghost use Rattle.raft_core.specs.Commits.{holds_index, IsGreatest, IsRisen};
ghost use Rattle.raft_core.specs.Inner.Commits.{is_chosen_in};
ghost use Rattle.raft_snapshot.specs.Bases.{state_from};
ghost use Rattle.raft_snapshot.specs.Watching.{SeesAll};

use crate::log::term_at;
use machine::Machine;
use raft_snapshot::{Log, Watch, apply_range_watched};
use rows::{Index, LeaderTerm, NoMemory, ServerId};

/// How many servers hold an index: the leader `me`, and each that is known to.
fn count_holders(me: ServerId, matched: &[u64], index: u64) -> usize
    ensures count { result ≡ count (holds_index me matched.now index) (length matched.now) }
    ensures bound { result ≤ length matched.now }
{
    let mut held = 0;
    for (position, level) in matched.iter().enumerate() {
        let is_holder = position == me.position() || index <= *level;
        if is_holder {
            held += 1;
        }
    }
    held
}

/// Whether more than half of the servers hold an index.
#[tactic(auto, unfolding(raft_model::specs::Quorums::is_quorum))]
fn is_quorum(me: ServerId, matched: &[u64], index: u64) -> bool
    requires { length matched.now ≤ 5 }
    ensures { result ≡ is_quorum (length matched.now) (holds_index me matched.now index) }
{
    2 * count_holders(me, matched, index) > matched.len()
}

/// The greatest match index of another server below an index, or 0: above it and up to the index
/// the same servers hold.
fn next_lower(me: ServerId, matched: &[u64], index: u64) -> u64
    requires { 0 < index }
    ensures below { result < index }
    ensures others { (j : ℕ) → j < length matched.now → j ≢ me → index_at matched.now j < index →
        index_at matched.now j ≤ result }
    ensures one { (result ≡ 0)
        ⊎ ((j : ℕ) × (j < length matched.now) × (j ≢ me) × (index_at matched.now j ≡ result)) }
{
    let mut low = 0;
    for (position, level) in matched.iter().enumerate() {
        if position != me.position() && low < *level && *level < index {
            low = *level;
        }
    }
    low
}

/// The commit index of a leader: it rises to the greatest index whose entry is of its own term and
/// held by more than half of the servers. Only what stands above commit is looked at, and of the
/// indexes that no quorum holds at most one for each server.
fn risen<M: Machine>(
    me: ServerId,
    commit: Index,
    term: LeaderTerm,
    log: &Log<M>,
    matched: &[u64],
) -> u64
    requires group { length matched.now ≤ 5 }
    requires covered { log.now.base.index ≤ commit }
    ensures value { result ≡ greatest
        (is_chosen_in (length matched.now) me term log.now.entries matched.now) commit
        (length log.now.entries) }
    ensures rises { commit ≤ result }
    ensures within { commit ≤ length log.now.entries → result ≤ length log.now.entries }
    ensures short { result < 2 ^ 40 }
{
    let mut index = log.last().get();
    while commit.get() < index {
        if !is_quorum(me, matched, index) {
            index = next_lower(me, matched, index);
        } else if term_at(log, index).get() == term.get() {
            return index;
        } else {
            index -= 1;
        }
    }
    commit.get()
}

/// A leader's commit index rises, the machine being brought on first by what is newly committed,
/// and a watcher sees each entry of that.
pub fn advance<M: Machine, W: Watch<M>>(
    machine: &mut M,
    me: ServerId,
    commit: Index,
    term: LeaderTerm,
    log: &Log<M>,
    matched: &[u64],
    watch: &mut W,
) -> Result<Index, NoMemory>
    requires group { length matched.now ≤ 5 }
    requires covered { log.now.base.index ≤ commit }
    requires committed { commit ≤ length log.now.entries }
    requires state { machine.old ≡ state_from M.spec log.now.base
        (take commit log.now.entries) }
    ensures value { IfOk result (λ n. n
        ≡ greatest (is_chosen_in (length matched.now) me term log.now.entries matched.now) commit
        (length log.now.entries)) }
    ensures rises { IfOk result (λ n. commit ≤ n) }
    ensures within { IfOk result (λ n. n ≤ length log.now.entries) }
    ensures state { IfOk result (λ n. machine.new
        ≡ state_from M.spec log.now.base (take n log.now.entries)) }
    ensures seen { IfOk result (λ n. SeesAll M.spec W.sees term
        (state_from M.spec log.now.base (take commit log.now.entries))
        (drop commit (take n log.now.entries)) watch.old watch.new) }
{
    let to = risen::<M>(me, commit, term, log, matched);
    let Some(to) = Index::new(to) else {
        unreachable!()
    };
    apply_range_watched(machine, term, log, commit.get(), to.get(), watch)?;
    Ok(to)
}

/// A leader's commit index never falls, and rises to the greatest index whose entry is of the
/// leader's own term and held by a quorum, and to no other. The function has an empty body: what it
/// says is its contract.
pub fn commit_is_greatest<M: Machine>()
    ensures greatest { (test : ℕ → Bool) (low high : ℕ) →
        IsGreatest test low high (greatest test low high) }
    ensures risen { (n me : ℕ) (s : Raft M.Command) (next matched : List ℕ) →
        s.mode ≡ Leader next matched → IsRisen n me s matched (advanced n me s).commit }
{}
