//! What a server's workers ask of another server, as a line of a scenario says it.
ghost use Rattle.std.specs.Prelude.{◌≡◌, ◌++◌, ◌∷◌, List, [], Some, IfOk, IfSome, OnOk, take};
ghost use Rattle.std.specs.List.{join_with_byte};
ghost use Rattle.rows.specs.Batches.{BatchFits};
ghost use Rattle.rows.specs.Fits.{AllocIdFits, EvalIdFits, IndexFits, PlaceFits, PlanFits, TokenFits};
ghost use Rattle.rows.specs.Names.{NameFits};
ghost use Rattle.rows.specs.declared.allocation.AllocId.{AllocId};
ghost use Rattle.rows.specs.declared.plan.Place.{Place};
ghost use Rattle.rows.specs.declared.plan.Plan.{Plan};
ghost use Rattle.rows.specs.declared.worker.EvalOutcome.{EvalOutcome};
ghost use Rattle.event_texts.specs.WorkerLines.{EndFits, eval_text, outcome_words, plan_words, token_text};
ghost use Rattle.event_texts.specs.Inner.Plain.{lists_text};

use crate::list::{append_batch, read_batch};
use crate::spelled::{Spelled, append_word, cut_pair, cut_word};
use crate::word::{append_text, cut, read_index};
use rows::{AllocId, Batch, EvalId, EvalOutcome, NoMemory, Place, Plan, Token};
use std::alloc::Global;

/// `blocked SNAPSHOT`, `complete 0` or `failed 0`.
pub(crate) fn read_outcome(text: &str) -> Option<EvalOutcome>
    ensures named { IfSome result (λ outcome. EndFits outcome
        × (text.now ≡ join_with_byte 32 (outcome_words outcome))) }
    ensures read { (outcome : EvalOutcome) → EndFits outcome
        → text.now ≡ join_with_byte 32 (outcome_words outcome) → result ≡ Some outcome }
{
    match text {
        "complete 0" => Some(EvalOutcome::Complete),
        "failed 0" => Some(EvalOutcome::Failed),
        _ => {
            let snapshot = text.strip_prefix("blocked ")?;
            Some(EvalOutcome::Blocked(read_index(snapshot)?))
        }
    }
}

// What stands behind the two servers of `submit`.
pub(crate) fn read_plan(alloc: Global, text: &str) -> Result<Option<Plan>, NoMemory>
    ensures named { IfOk result (λ read. IfSome read (λ plan. PlanFits plan
        × (text.now ≡ join_with_byte 32 (plan_words plan)))) }
    ensures read { (plan : Plan) → PlanFits plan → text.now ≡ join_with_byte 32 (plan_words plan)
        → IfOk result (λ read. read ≡ Some plan) }
{
    let Some((eval, token, text)) = cut_pair(text) else {
        return Ok(None);
    };
    let Some((job, text)) = cut_word(text) else {
        return Ok(None);
    };
    let Some((version, snapshot, text)) = cut_pair(text) else {
        return Ok(None);
    };
    let Some((stops, places)) = read_lists(alloc, text)? else {
        return Ok(None);
    };
    Ok(Some(Plan {
        eval,
        token,
        job,
        version,
        snapshot,
        stops,
        places,
    }))
}

// The stops and the places of a plan.
fn read_lists(alloc: Global, text: &str) -> Result<Option<(Batch<AllocId>, Batch<Place>)>, NoMemory>
    ensures named { IfOk result (λ read. IfSome read (λ lists. BatchFits AllocIdFits lists.0
        × BatchFits PlaceFits lists.1
        × (text.now ≡ lists_text lists.0 lists.1))) }
    ensures read { (stops : List AllocId) (places : List Place) → BatchFits AllocIdFits stops
        → BatchFits PlaceFits places → text.now ≡ lists_text stops places
        → IfOk result (λ read. read ≡ Some (stops, places)) }
{
    let Some((stops, places)) = cut(text, ' ') else {
        return Ok(None);
    };
    let Some(stops) = read_batch(alloc, stops)? else {
        return Ok(None);
    };
    let Some(places) = read_batch(alloc, places)? else {
        return Ok(None);
    };
    Ok(Some((stops, places)))
}

// Puts an outcome to the end.
fn append_outcome(outcome: &EvalOutcome, out: &mut Vec<u8>) -> Result<(), NoMemory>
    ensures { OnOk result (EndFits outcome.now
        × (out.new.items ≡ out.old.items ++ join_with_byte 32 (outcome_words outcome.now))) }
{
    match outcome {
        EvalOutcome::Blocked(snapshot) => {
            append_text("blocked", out)?;
            append_word(snapshot, out)
        }
        EvalOutcome::Complete => append_text("complete 0", out),
        EvalOutcome::Failed => append_text("failed 0", out),
    }
}

// Puts an evaluation and a token to the end.
fn append_delivery(eval: EvalId, token: Token, out: &mut Vec<u8>) -> Result<(), NoMemory>
    ensures { OnOk result (EvalIdFits eval × TokenFits token
        × (out.new.items ≡ out.old.items
        ++ join_with_byte 32 (eval_text eval ∷ token_text token ∷ []))) }
{
    eval.append(out)?;
    append_word(&token, out)
}

/// Puts to the end what stands behind the two servers of `finish`.
#[tactic(auto, using(crate::proofs::Written::before_outcome))]
pub(crate) fn append_finish(
    eval: EvalId,
    token: Token,
    outcome: &EvalOutcome,
    out: &mut Vec<u8>,
) -> Result<(), NoMemory>
    ensures { OnOk result (EvalIdFits eval × TokenFits token × EndFits outcome.now
        × (out.new.items ≡ out.old.items
        ++ join_with_byte 32 (eval_text eval ∷ token_text token ∷ outcome_words outcome.now))) }
{
    append_delivery(eval, token, out)?;
    out.push(b' ')?;
    append_outcome(outcome, out)
}

// What stands before the lists of a plan.
fn append_head(plan: &Plan, out: &mut Vec<u8>) -> Result<(), NoMemory>
    ensures { OnOk result (EvalIdFits plan.now.eval × TokenFits plan.now.token
        × NameFits plan.now.job × IndexFits plan.now.version × IndexFits plan.now.snapshot
        × (out.new.items ≡ out.old.items ++ join_with_byte 32 (take 5 (plan_words plan.now)))) }
{
    append_delivery(plan.eval, plan.token, out)?;
    append_word(&plan.job, out)?;
    append_word(&plan.version, out)?;
    append_word(&plan.snapshot, out)
}

/// Puts to the end what stands behind the two servers of `submit`.
pub(crate) fn append_plan(plan: &Plan, out: &mut Vec<u8>) -> Result<(), NoMemory>
    ensures { OnOk result (PlanFits plan.now
        × (out.new.items ≡ out.old.items ++ join_with_byte 32 (plan_words plan.now))) }
{
    append_head(plan, out)?;
    out.push(b' ')?;
    append_lists(&plan.stops, &plan.places, out)
}

// The stops and the places of a plan.
fn append_lists(
    stops: &Batch<AllocId>,
    places: &Batch<Place>,
    out: &mut Vec<u8>,
) -> Result<(), NoMemory>
    ensures { OnOk result (BatchFits AllocIdFits stops.now × BatchFits PlaceFits places.now
        × (out.new.items ≡ out.old.items ++ lists_text stops.now places.now)) }
{
    append_batch(stops, out)?;
    out.push(b' ')?;
    append_batch(places, out)
}
