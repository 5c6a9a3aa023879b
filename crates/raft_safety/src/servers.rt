//! What is committed stays, commit rises where its rule lets it, and all numbers stay within their
//! limits.
ghost use Rattle.std.specs.Prelude.{◌≡◌, ◌≤◌, ◌⊎◌, ℕ, suc, true, false, Some, slice_get};
ghost use Rattle.raft_model.specs.Messages.{Message};
ghost use Rattle.raft_model.specs.Rafts.{Raft, is_up};
ghost use Rattle.raft_model.specs.Chains.{Agree, At};
ghost use Rattle.raft_safety.specs.Claims.{EachRun, UpFromTo, SameStored, Limits, IsAmongMembers, HasRisen};

use machine_model::Machine;

/// What a server has applied it keeps as long as it is up.
/// - `stays`: from one moment to a later one, up at each between them, commit does not fall, and
///   what was committed stands in the log.
/// - `stored`: who goes down, is down or comes up keeps what is stored.
/// - `resumes`: who comes up begins from what its snapshot covers.
pub fn applied_stays<M: Machine>()
    ensures stays { EachRun M.spec (λ n events past w. (k l i : ℕ) (s t : Raft M.Command)
        → k ≤ l → At past w k i s → At past w l i t → UpFromTo past w i k l →
        (s.commit ≤ t.commit) × Agree s.commit s.log t.log) }
    ensures stored { EachRun M.spec (λ n events past w. (k i : ℕ) (s t : Raft M.Command)
        → At past w k i s → At past w (suc k) i t →
        (is_up s.mode ≡ false) ⊎ (is_up t.mode ≡ false) → SameStored s t) }
    ensures resumes { EachRun M.spec (λ n events past w. (k i : ℕ) (s t : Raft M.Command)
        → At past w k i s → At past w (suc k) i t →
        is_up s.mode ≡ false → is_up t.mode ≡ true → t.commit ≡ s.covered) }
{}

/// In a group of two or more, commit has risen at every moment as far as the leader's rule lets it.
/// (Raft, section 5.4.2.)
pub fn commit_has_risen<M: Machine>()
    ensures { EachRun M.spec (λ n events past w. 2 ≤ n → (k i : ℕ) (s : Raft M.Command)
        → At past w k i s → HasRisen n i s) }
{}

/// Terms and indexes stay below 2^40, a snapshot covers committed entries, and commit never passes
/// the log. Every message goes from one server of the group to another.
pub fn within_limits<M: Machine>()
    ensures servers { EachRun M.spec (λ n events past w. (k i : ℕ) (s : Raft M.Command)
        → At past w k i s → Limits s) }
    ensures messages { EachRun M.spec (λ n events past w. (k : ℕ) (x : Message M.Command)
        → slice_get w.sent k ≡ Some x → IsAmongMembers n x) }
{}
