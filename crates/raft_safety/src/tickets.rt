//! What became of a command that was proposed, by the index and the term at which it was appended.
//! (Raft, Figure 3 and sections 5.3, 5.4.)
ghost use Rattle.std.specs.Prelude.{ℕ, List};
ghost use Rattle.machine_model.specs.declared.entry.Entry.{Entry};
ghost use Rattle.raft_model.specs.Worlds.{World};
ghost use Rattle.raft_model.specs.Chains.{Chain};
ghost use Rattle.raft_safety.specs.Claims.{EachRun};
ghost use Rattle.raft_safety.specs.Tickets.{Stood, GoesOn, CommitIsFinal};

use machine_model::Machine;

/// What a server has committed is final. Who was told the index and the term at which a command
/// was appended, and finds that term at that index within some server's commit, knows that the
/// command is in the list for good, at that place; who finds another term there knows that it never
/// will be.
/// - `settled`: the list has an entry of that server's term at that index; no other command ever
///   stood there in that term, in any log; and however the run goes on, its list has the same entry
///   there.
/// - `stood`: what stood in a run stood in each that goes on from it.
pub fn commit_is_final<M: Machine>()
    ensures settled { EachRun M.spec (λ n events past w. (list : List (Entry M.Command))
        → Chain past w list → CommitIsFinal past w list) }
    ensures stood { (past : List (World M.Command)) (w : World M.Command) (later : List (World M.Command)) (last : World M.Command) (index term : ℕ) (command : M.Command) →
        GoesOn past w later last → Stood past w index term command
        → Stood later last index term command }
{}
