//! Laws of the replicated state. Each function has an empty body: what it says is its contract.
ghost use Rattle.std.specs.Prelude.{◌≡◌, ◌+◌, ◌++◌, ◌^◌, ◌<◌, Some, None, ℕ, sum_by, T as Holds};
ghost use Rattle.rows.specs.declared.command.AcceptedPlan.{AcceptedPlan as AnyPlan};
ghost use Rattle.rows.specs.declared.command.Command.{Command as AnyCommand};
ghost use Rattle.rows.specs.declared.command.Command.TheVariants as commands;
ghost use Rattle.rows.specs.declared.refusal.Refusal.{Refusal as AnyRefusal};
ghost use Rattle.fsm_model.specs.Words.{State, no_rows};
ghost use Rattle.fsm_model.specs.SafeFacts.{Safe};
ghost use Rattle.fsm_tables.specs.Claims.{Claim, claims};
ghost use Rattle.fsm_model.specs.Effect.{applied, with_next_count, planned, stop};
ghost use Rattle.fsm_model.specs.Plans.{ended};
ghost use Rattle.fsm_model.specs.Plans.{kept_claims, wanted, IsAskable, PlanIsSafe};
ghost use Rattle.fsm_model.specs.Plans.{FitsWhereAsked, AfterIsSafe};
ghost use Rattle.fsm_model.specs.Safe.{is_safe};
ghost use Rattle.fsm_model.specs.Admission.{admission};
ghost use Rattle.rows.specs.Fits.{CommandFits};
ghost use Rattle.machine_model.specs.MachineSpec.{IsMachineRefusal};
ghost use Rattle.rows.specs.States.{AreTables};
ghost use Rattle.rows.specs.States.{IsState};
ghost use Rattle.fields_model.specs.StateText.{state};
ghost use Rattle.fields_model.specs.Commands.{command};
ghost use Rattle.fsm_model.specs.OldTexts.{IsStateWithoutDisk, IsWithoutDisk, SafeOfTwo};

/// The empty state is safe, its count is 0, its tables are in order, with every row in its ranges,
/// and each state admits the no-op.
pub fn empty_is_lawful()
    ensures safe { Safe no_rows }
    ensures count { no_rows.count ≡ 0 }
    ensures state { IsState no_rows }
    ensures noop { (s : State) → admission s commands.Noop ≡ None }
{}

/// What holds of each command: what admission lets pass keeps a safe state safe; the count rises by
/// one; the tables stay in order and within their limits, also where the command was not admitted;
/// every row stays within its ranges, where the command is within its own; a refusal is the
/// machine's own.
pub fn commands_are_lawful()
    ensures safe { (s : State) (c : AnyCommand)
        → Safe s → admission s c ≡ None → Safe (applied s c) }
    ensures count { (s : State) (c : AnyCommand) → (applied s c).count ≡ s.count + 1 }
    ensures tables { (s : State) (c : AnyCommand) → AreTables s → AreTables (applied s c) }
    ensures state { (s : State) (c : AnyCommand)
        → IsState s → CommandFits c → s.count + 1 < 2 ^ 40 → IsState (applied s c) }
    ensures own { (s : State) (c : AnyCommand) (r : AnyRefusal)
        → admission s c ≡ Some r → IsMachineRefusal r }
{}

/// A state is safe exactly where the test says so.
pub fn safety_is_decided()
    ensures safe { (s : State) → Holds (is_safe s) → Safe s }
    ensures test { (s : State) → Safe s → Holds (is_safe s) }
{}

/// When the state after a plan is safe, on every state whose allocations were made by entries
/// before this one, be it safe or not: where each node's use, of what the plan keeps and what it
/// wants, is within the node's size, and no name is claimed twice among these. That use is the
/// present one, without what the plan ends, with what it wants. Where a row stands under an id that
/// the plan makes, it is replaced, and counts no more than one that is stopped.
pub fn plans_are_decided()
    ensures safe { (p : AnyPlan) (s : State)
        → IsAskable p s → PlanIsSafe p s → Holds (is_safe (planned p (with_next_count s))) }
    ensures needs { (p : AnyPlan) (s : State)
        → IsAskable p s → Holds (is_safe (planned p (with_next_count s))) → PlanIsSafe p s }
    ensures safe_always { (p : AnyPlan) (s : State)
        → FitsWhereAsked p s → AfterIsSafe p s → Holds (is_safe (planned p (with_next_count s))) }
    ensures needs_always { (p : AnyPlan) (s : State)
        → FitsWhereAsked p s → Holds (is_safe (planned p (with_next_count s))) → AfterIsSafe p s }
    ensures uses { (w : Claim → ℕ) (p : AnyPlan) (s : State)
        → sum_by w (kept_claims p s ++ wanted p) + sum_by w (ended (stop p.stops) s.allocs)
        ≡ sum_by w (claims s.allocs) + sum_by w (wanted p) }
{}

/// A state that has a text of version 1 is without disk; so it is safe as soon as it is safe by the
/// two sums that there were then, of processor time and of memory.
pub fn old_states_stay_safe()
    ensures without_disk { (s : State) → (state 1).Fits s → IsStateWithoutDisk s }
    ensures safe { (s : State) → (state 1).Fits s → SafeOfTwo s → Safe s }
{}

/// A command that has a text of version 1 is without disk.
pub fn old_commands_have_no_disk()
    ensures { (c : AnyCommand) → (command 1).Fits c → IsWithoutDisk c }
{}
