//! The law of the queue. The function has an empty body: what it says is its contract.
ghost use Rattle.group_model.specs.Queues.{JoinsTheQueue};

/// What becomes of a desk to which a plan of an evaluation that is there comes is what becomes of
/// its queue: the plan joins it or is refused, and nothing else of the desk changes.
pub fn plans_join_the_queue()
    ensures { JoinsTheQueue }
{}
