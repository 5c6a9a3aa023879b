//! What became of tickets that were told.
ghost use Rattle.std.specs.Prelude.{◌≡◌, ◌++◌, ◌∷◌, [], List, IfOk, OnOk};
ghost use Rattle.journal.specs.Events.{IoEvent};
ghost use Rattle.server_node.specs.declared.asked.Asked.{Asked as AnyAsked};
ghost use Rattle.server_node.specs.Answers.{Settles, is_settled};
ghost use Rattle.server_node.specs.Inner.Going.{Puts};

use crate::answers::{placed_text, proposal_word, put_answer};
use crate::asked::Asked;
use journal::Out;
use raft_core::{ProposalStatus, Ticket};
use rows::NoMemory;
use server::Server;
use std::alloc::Global;

/// Whether it is known what became of a command.
fn is_settled(status: Option<ProposalStatus>) -> bool
    ensures { result ≡ is_settled status }
{
    match status {
        None | Some(ProposalStatus::Pending) => false,
        _ => true,
    }
}

/// What became of a ticket is told where it is known; else the ticket is put behind the open ones.
fn settle_one(
    alloc: Global,
    server: &Server,
    ticket: Asked,
    unsettled: &mut Vec<Asked>,
    answers: &mut Vec<Out>,
) -> Result<(), NoMemory>
    ensures { OnOk result ((told : List IoEvent) × (left : List AnyAsked)
        × Settles server.now (ticket ∷ []) told left
        × Puts answers.old.items answers.new.items told
        × (unsettled.new.items ≡ unsettled.old.items ++ left)) }
{
    let index = ticket.index;
    let term = ticket.term;
    let status = server.proposal_status(Ticket { index, term });
    if is_settled(status) {
        let text = placed_text(alloc, proposal_word(status), index.get(), term.get())?;
        put_answer(alloc, ticket.id, text.as_slice(), answers)?;
        return Ok(());
    }
    unsettled.push(ticket)?;
    Ok(())
}

/// What became of the tickets of which it is known now is told, in order; those of which it is not
/// are the answer.
pub fn settle(
    alloc: Global,
    server: &Server,
    asked: &[Asked],
    answers: &mut Vec<Out>,
) -> Result<Vec<Asked>, NoMemory>
    ensures { IfOk result (λ left. (told : List IoEvent)
        × Settles server.now asked.now told left.items
        × Puts answers.old.items answers.new.items told) }
{
    let mut unsettled = Vec::new(alloc);
    for ticket in asked {
        settle_one(alloc, server, *ticket, &mut unsettled, answers)?;
    }
    Ok(unsettled)
}
