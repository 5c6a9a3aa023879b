//! In a calm part of a run one candidate comes to lead.
ghost use Rattle.std.specs.Prelude.{◌≡◌, ◌<◌, ◌≤◌, ℕ, Bool, true, false, Some, length, slice_get};
ghost use Rattle.raft_model.specs.Quorums.{Quorum};
ghost use Rattle.raft_model.specs.Rafts.{Raft, is_leader};
ghost use Rattle.raft_model.specs.Worlds.{World};
ghost use Rattle.raft_safety.specs.Claims.{EachRun};
ghost use Rattle.raft_progress.specs.Recovery.{AllUp, HasRoom};
ghost use Rattle.raft_progress.specs.Calm.{Go, HasBestLog, NobodyAhead, StableLeader};

use machine_model::Machine;

/// Of a quorum that is up, and whose members from now on take only what members send from now on,
/// one server alone stands for election; its log is no older than theirs, and nobody is ahead of it
/// in term. It leads once it has timed out and been answered, for as long as it stays calm.
pub fn one_go_elects<M: Machine>()
    ensures { EachRun M.spec (λ n events past w. 2 ≤ n → (Q : ℕ → Bool) → Quorum n Q
        → AllUp n Q w → (i : ℕ) → i < n → Q i ≡ true → HasBestLog n Q i w → NobodyAhead n Q i w
        → (v : World M.Command) → Go M.spec n Q i (length w.sent) w v
        → StableLeader M.spec n Q i (length w.sent) v) }
{}

/// Wherever the terms are, two goes are enough: by the answers of the first it learns of the
/// greatest term.
pub fn two_goes_elect<M: Machine>()
    ensures { EachRun M.spec (λ n events past w. 2 ≤ n → (Q : ℕ → Bool) → Quorum n Q
        → AllUp n Q w → (i : ℕ) → i < n → Q i ≡ true → HasBestLog n Q i w
        → (v : World M.Command) → Go M.spec n Q i (length w.sent) w v
        → (u : World M.Command) → Go M.spec n Q i (length w.sent) v u
        → StableLeader M.spec n Q i (length w.sent) u) }
{}

/// There is such a go, wherever the one candidate does not lead.
pub fn goes_exist<M: Machine>()
    ensures { EachRun M.spec (λ n events past w. 2 ≤ n → (Q : ℕ → Bool) → Quorum n Q
        → AllUp n Q w → (i : ℕ) → i < n → Q i ≡ true → HasBestLog n Q i w
        → (me : Raft M.Command) → slice_get w.servers i ≡ Some me → is_leader me.mode ≡ false
        → HasRoom n Q w → (v : World M.Command) × Go M.spec n Q i (length w.sent) w v) }
{}
