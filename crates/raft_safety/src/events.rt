//! Runs, their parts and their traces.
ghost use Rattle.std.specs.Prelude.{◌≡◌, ℕ, suc, Some, List, take};
ghost use Rattle.raft_model.specs.Worlds.{World, Event, Outcome, Run, Trace, moment};
ghost use Rattle.raft_safety.specs.Claims.{EachRun, Happened};

use machine_model::Machine;

/// What is left of a list of events, each kept, replaced by a crash or left out with its refusal,
/// is the list of a run.
pub fn a_trace_runs<M: Machine>()
    ensures { (n : ℕ) (events : List (Event M.Command)) (outcomes : List Outcome) (trace : List (Event M.Command)) (past : List (World M.Command)) (w : World M.Command) →
        Trace M.spec n events outcomes trace past w → Run M.spec n trace past w }
{}

/// A run up to any of its moments is a run, and from each moment to the next one event happens, the
/// one at that place of the list.
pub fn a_run_is_steps<M: Machine>()
    ensures front { EachRun M.spec (λ n events past w. (k : ℕ) (x : World M.Command)
        → moment past w k ≡ Some x → Run M.spec n (take k events) (take k past) x) }
    ensures step { EachRun M.spec (λ n events past w. (k : ℕ) (x y : World M.Command)
        → moment past w k ≡ Some x → moment past w (suc k) ≡ Some y
        → Happened M.spec events k x y) }
{}
