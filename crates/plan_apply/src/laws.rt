//! A law of the definitions. The function does nothing: what it says is its contract.
ghost use Rattle.plan_apply.specs.Admitted.{KeptIsAdmitted};

/// What is kept of a plan at a safe state is admitted there, as long as its evaluation is pending,
/// but where the table of allocations has no room for its places: then it is refused as full. So a
/// log refuses what was kept for no other reason of its machine's.
pub fn what_is_kept_is_admitted()
    ensures { KeptIsAdmitted }
{}
