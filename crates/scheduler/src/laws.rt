//! Laws of the definitions. The function has an empty body: what it says is its contract.
ghost use Rattle.scheduler.specs.Laws.{OnePlan, OneStep};

/// What a worker plans, and what it does next, is determined: two plans for one evaluation at one
/// state are the same, and so are two steps.
pub fn plans_are_determined()
    ensures plan { OnePlan }
    ensures step { OneStep }
{}
