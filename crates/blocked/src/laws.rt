//! The law of blocked evaluations. The function has an empty body: what it says is its contract.
ghost use Rattle.std.specs.Prelude.{List, []};
ghost use Rattle.fsm_model.specs.Words.{no_rows};
ghost use Rattle.blocked.specs.Calls.{Call, IsOfState};

/// After every list of calls the value is that of the state by then, which is what `rebuild` would
/// give: the blocked evaluations with the classes that their jobs ask for, and the room of the
/// nodes.
pub fn blocked_is_of_the_state()
    ensures { (calls : List Call)
        → IsOfState no_rows (record { evals = []; room = λ class. 0 }) calls }
{}
