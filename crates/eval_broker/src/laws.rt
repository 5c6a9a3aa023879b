//! Laws of the definitions. The functions do nothing: what they say is their contracts.
ghost use Rattle.eval_broker.specs.Calls.{HoldsAfterCalls};
ghost use Rattle.eval_broker.specs.Worked.Runs.{GoneOnceChanged, NoSerialLeft, FailedInOrder};

/// After every list of calls, from `rebuild` on, the evaluations that a broker holds are those that
/// are pending in the applied state, and so those that `rebuild` from that state would give.
pub fn holds_what_is_pending()
    ensures { HoldsAfterCalls }
{}

/// A worked run, which goes on where that of the definitions' own worked brokers ends.
pub fn worked_run()
    ensures gone { GoneOnceChanged }
    ensures no_serial { NoSerialLeft }
    ensures failed { FailedInOrder }
{}
