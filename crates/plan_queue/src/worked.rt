//! Worked queues, each a law by computation.
ghost use Rattle.plan_queue.specs.Worked.{SecondGoes, ThenThird, ThenFirst, ThenNone};
ghost use Rattle.plan_queue.specs.Worked.{LastJoins, OneTooMany};

/// Plans of priority 50, 70 and 70 come: the second goes, then the third, then the first.
pub fn worked_order()
    ensures second { SecondGoes }
    ensures third { ThenThird }
    ensures first { ThenFirst }
    ensures none { ThenNone }
{}

/// The 256th plan joins the queue; one more is refused.
pub fn worked_full_queue()
    ensures joins { LastJoins }
    ensures refused { OneTooMany }
{}
