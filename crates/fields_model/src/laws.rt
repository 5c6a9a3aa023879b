//! The laws of the formats. Each function has an empty body: what it says is its contract.
ghost use Rattle.std.specs.Prelude.{◌≡◌, ℕ, ◌≤◌};
ghost use Rattle.fields_model.specs.Format.{Lawful};
ghost use Rattle.fields_model.specs.Fields.{term, index, server, byte, u16, u32, u64, bool, actor};
ghost use Rattle.fields_model.specs.Ids.{name, size, node_id, evaluation_id, allocation_id, token, delivery};
ghost use Rattle.fields_model.specs.Rows.{job, node, evaluation, allocation};
ghost use Rattle.fields_model.specs.Commands.{plan, reports, command};
ghost use Rattle.fields_model.specs.Services.{eval_outcome, plan_result, asked_request, reason, client_request_kind, told_reason, listing};
ghost use Rattle.fields_model.specs.StateText.{state};
ghost use Rattle.rows.specs.State.{State};
ghost use Rattle.rows.specs.Versions.{newest};
ghost use Rattle.rows.specs.States.{IsState};
ghost use Rattle.rows.specs.Fits.{CommandFits};
ghost use Rattle.rows.specs.declared.command.Command.{Command};

/// Numbers, flags, terms and places in the log have lawful formats: what is read stands there, what
/// stands there is read, whatever follows it, and a fault lies within the bytes.
pub fn numbers_are_lawful()
    ensures byte { Lawful byte }
    ensures u16 { Lawful u16 }
    ensures u32 { Lawful u32 }
    ensures u64 { Lawful u64 }
    ensures bool { Lawful bool }
    ensures term { Lawful term }
    ensures index { Lawful index }
{}

/// Servers have lawful formats, and actors, who are servers and clients.
pub fn actors_are_lawful()
    ensures server { Lawful server }
    ensures actor { Lawful actor }
{}

/// The rows, tokens, plans and commands of the replicated state have lawful formats, and so has its
/// text, in each version: at most 65,536 bytes a command, and 10,334,808 a state.
pub fn rows_are_lawful()
    ensures name { Lawful name }
    ensures size { (version : ℕ) → Lawful (size version) }
    ensures node_id { Lawful node_id }
    ensures evaluation_id { Lawful evaluation_id }
    ensures allocation_id { Lawful allocation_id }
    ensures token { Lawful token }
    ensures delivery { Lawful delivery }
    ensures job { (version : ℕ) → Lawful (job version) }
    ensures node { (version : ℕ) → Lawful (node version) }
    ensures evaluation { Lawful evaluation }
    ensures allocation { (version : ℕ) → Lawful (allocation version) }
    ensures plan { Lawful plan }
    ensures reports { Lawful reports }
    ensures command { (version : ℕ) → Lawful (command version) }
    ensures command_short { (version : ℕ) → (command version).most ≤ 65536 }
    ensures state { (version : ℕ) → Lawful (state version) }
    ensures state_short { (version : ℕ) → (state version).most ≡ 10334808 }
{}

/// What workers and the leader's desk tell each other has lawful formats, and what an agent is told
/// and shown.
pub fn services_are_lawful()
    ensures eval_outcome { Lawful eval_outcome }
    ensures plan_result { Lawful plan_result }
    ensures asked_request { Lawful asked_request }
    ensures reason { Lawful reason }
    ensures client_request_kind { Lawful client_request_kind }
    ensures told_reason { Lawful told_reason }
    ensures listing { Lawful listing }
{}

/// The states that have a text of the newest version are those with each table within its limit and
/// in strictly rising key, and each part of each row within its own, and a text of any version is of
/// such a state; the commands that have one are those whose parts are within theirs.
pub fn texts_are_within_limits()
    ensures state { (s : State) → IsState s → (state newest).Fits s }
    ensures only_state { (version : ℕ) (s : State) → (state version).Fits s → IsState s }
    ensures command { (c : Command) → CommandFits c → (command newest).Fits c }
    ensures only_command { (version : ℕ) (c : Command) → (command version).Fits c → CommandFits c }
{}
