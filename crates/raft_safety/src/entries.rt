//! Log matching, the one list of a run, its states, and where its entries come from. (Raft, Figure
//! 3 and sections 5.3, 5.4.)
ghost use Rattle.std.specs.Prelude.{◌≡◌, ◌<◌, ℕ, List, length, take, Some};
ghost use Rattle.machine_model.specs.After.{Admitted};
ghost use Rattle.machine_model.specs.declared.entry.Entry.{Entry};
ghost use Rattle.raft_model.specs.Logs.{commands, state_after};
ghost use Rattle.raft_model.specs.Rafts.{Raft};
ghost use Rattle.raft_model.specs.Worlds.{World, moment};
ghost use Rattle.raft_model.specs.Chains.{Agree, At, Chain};
ghost use Rattle.raft_safety.specs.Claims.{EachRun, LogMatching, IsGreatestCommit, Origin};

use machine_model::Machine;

/// Two logs that hold an entry of one index and term, at one moment or at two, are the same up to
/// it.
pub fn log_matching<M: Machine>()
    ensures { EachRun M.spec (λ n events past w. LogMatching past w) }
{}

/// Each run has one list, of which every server has committed a first part at every moment. Whoever
/// leads a term has in its log what a server in a term up to that one had committed by then.
/// - `exists`: there is such a list, and `alone`: there is no other.
/// - `long`: it is as long as the greatest commit index of a server that was up, and `number`: that
///   number is one.
/// - `grows`: the list of each first part of the run is its beginning.
pub fn one_list<M: Machine>()
    ensures exists { EachRun M.spec (λ n events past w. (list : List (Entry M.Command))
        × Chain past w list) }
    ensures alone { (past : List (World M.Command)) (w : World M.Command) (list other : List (Entry M.Command)) → Chain past w list → Chain past w other → list ≡ other }
    ensures long { (past : List (World M.Command)) (w : World M.Command) (list : List (Entry M.Command)) → Chain past w list → IsGreatestCommit past w (length list) }
    ensures number { (past : List (World M.Command)) (w : World M.Command) (c d : ℕ)
        → IsGreatestCommit past w c → IsGreatestCommit past w d → c ≡ d }
    ensures grows { (past : List (World M.Command)) (w : World M.Command) (list : List (Entry M.Command)) → Chain past w list →
        (k : ℕ) (x : World M.Command) (short : List (Entry M.Command)) → moment past w k ≡ Some x
        → Chain (take k past) x short → Agree (length short) short list }
{}

/// The state after each first part of the list is safe, and so is that after each first part of any
/// server's log, a leader's above all: each log was admitted command by command.
pub fn states_are_safe<M: Machine>()
    ensures list { EachRun M.spec (λ n events past w. (list : List (Entry M.Command))
        → Chain past w list → (k : ℕ) → M.spec.safe (state_after M.spec (take k list))) }
    ensures log { EachRun M.spec (λ n events past w. (k i : ℕ) (s : Raft M.Command)
        → At past w k i s → (p : ℕ) → M.spec.safe (state_after M.spec (take p s.log))) }
    ensures admitted { EachRun M.spec (λ n events past w. (k i : ℕ) (s : Raft M.Command)
        → At past w k i s → Admitted M.spec (commands s.log)) }
{}

/// Each entry of the list was appended by a leader of its term whose log was just what precedes it
/// in the list; a no-op also by the candidate that won the term by this event.
pub fn entries_have_origins<M: Machine>()
    ensures { EachRun M.spec (λ n events past w. (list : List (Entry M.Command))
        → Chain past w list → (p : ℕ) → p < length list → Origin M.spec events past w list p) }
{}
