//! One server of a group over any machine, as the actor of a process. What it is asked, and what it
//! answers, are items of bytes.

ghost use Rattle.std.specs.Prelude.{◌≡◌, ◌≢◌, ◌≤◌, ◌∷◌, ◌++◌, [], ℕ, List, Ok, Err, Some, None, true, false, codes, drop, length, map, IfErr, IfOk, IfSome, MatchBool, MatchOption, OnOk, OnErr};
ghost use Rattle.rows.specs.Versions.{newest};
ghost use Rattle.fields_model.specs.Format.{Gives, GivesExactly, whole};
ghost use Rattle.wire.specs.Frames.{sized};
ghost use Rattle.raft_core.specs.Inputs.{handed};
ghost use Rattle.raft_core.specs.RaftView.{RaftView, SameRaft};
ghost use Rattle.raft_core.specs.StoredParts.{stored_part, MayKeepLog};
ghost use Rattle.raft_snapshot.specs.Stored.{Stored};
ghost use Rattle.journal.specs.Events.{IoEvent, AreOutputs, BytesSent, LineReported};
ghost use Rattle.journal.specs.Replays.{Replay};
ghost use Rattle.journal.specs.Savings.{output_event, IsSaving};
ghost use Rattle.raft_records.specs.Remembering.{Remembers};
ghost use Rattle.example_bank_server.specs.Inner.Refusals.{is_memory};
ghost use Rattle.example_bank_server.specs.Laws.Outputs.{outputs_alone};
ghost use Rattle.example_bank_server.specs.Items.{asked, begins_with, input_of, is_proposal, is_question, ticket};
ghost use Rattle.example_bank_server.specs.Lines.{Shows, refused_line, ticket_line, proposal_line, proposal_word};
ghost use Rattle.raft_records.specs.Records.{IsDelta, raft_replay};
ghost use Rattle.example_bank_server.specs.Turns.{Turn, IsTaken, IsDeclined, sends};
ghost use Rattle.raft_records.specs.declared.delta.LogDelta.TheVariants as deltas;

use crate::lines::{Words, proposal_line, proposal_word, refused_line, status_line, ticket_line};
use fields::{read_index, read_term};
use journal::{Actor, Out, Saving, item_of};
use machine::Machine;
use raft_core::{Input, Raft, Ticket};
use raft_records::{Before, LogDelta, changed, joined, remember};
use raft_snapshot::{Stable, changes_lead, stable_texts_are_whole};
use rows::{Index, NoMemory, Refusal, Term, Version};
use std::alloc::Global;
use std::marker::Model;
use wire::Frames;

/// A server of the log as an actor.
#[derive(Drop)]
pub struct Node<M: Words> {
    server: Raft<M>,
}

impl<M: Words> Model for Node<M> {
    ghost use Rattle.raft_core.specs.RaftView.{RaftView};

    ghost Value = { RaftView M M.Command };

    ghost view = { λ a. a.server };
}

impl<M: Words> Node<M> {
    /// The actor that this server is.
    pub fn new(server: Raft<M>) -> Node<M>
        ensures { result ≡ server }
    {
        Node { server }
    }
}

/// Puts a line behind what is sent and reported.
fn put_line(line: Vec<u8>, outs: &mut Vec<Out>) -> Result<(), NoMemory>
    ensures { OnOk result (map output_event outs.new.items
        ≡ map output_event outs.old.items ++ LineReported line.items ∷ []) }
{
    outs.push(Out::Line(line))?;
    Ok(())
}

/// Puts each frame, as an item, behind what is sent and reported.
fn put_frames(alloc: Global, frames: &Frames, outs: &mut Vec<Out>) -> Result<(), NoMemory>
    ensures { OnOk result (map output_event outs.new.items
        ≡ map output_event outs.old.items ++ sends frames.now) }
{
    for place in 0..frames.len() {
        let Some(frame) = frames.get(place) else {
            unreachable!()
        };
        outs.push(Out::Item(item_of(alloc, frame.bytes())?))?;
    }
    Ok(())
}

/// Whether it is want of memory.
fn is_memory(refusal: &Refusal) -> bool
    ensures { result ≡ is_memory refusal.now }
{
    match refusal {
        Refusal::NoMemory => true,
        _ => false,
    }
}

/// Reports why an item is refused. Want of memory is none of an item's.
fn decline<M: Words>(alloc: Global, refusal: Refusal, outs: &mut Vec<Out>) -> Result<(), NoMemory>
    ensures other { OnOk result (is_memory refusal ≡ false) }
    ensures line { OnOk result (map output_event outs.new.items
        ≡ map output_event outs.old.items ++ LineReported (refused_line M.reason refusal) ∷ []) }
{
    if is_memory(&refusal) {
        return Err(NoMemory);
    }
    let line = refused_line::<M>(alloc, refusal)?;
    put_line(line, outs)
}

/// Whether an item begins with a letter.
fn begins_with(item: &[u8], letter: u8) -> bool
    ensures { result ≡ begins_with letter item.now }
{
    !item.is_empty() && item[0] == letter
}

/// The bytes behind the first one.
fn behind_first(item: &[u8]) -> &[u8]
    requires { 1 ≤ length item.now }
    ensures { result.now ≡ drop 1 item.now }
{
    &item[1..]
}

/// The ticket behind the Q of a question.
fn read_ticket(text: &[u8]) -> Result<(Index, Term), Refusal>
    ensures { GivesExactly result (whole ticket text.now) }
{
    let (index, at) = read_index(text, 0)?;
    let (term, end) = read_term(text, at)?;
    if end == text.len() {
        Ok((index, term))
    } else {
        Err(Refusal::Frame(end))
    }
}

/// The command whose text this is.
fn read_command<M: Machine>(alloc: Global, text: &[u8]) -> Result<M::Command, Refusal>
    ensures { Gives result (whole (M.spec.commands newest) text.now) }
{
    let (command, size) = M::read_command(Version::newest(), alloc, text)?;
    if size == text.len() {
        Ok(command)
    } else {
        Err(Refusal::Frame(size))
    }
}

/// What an item is that is neither a proposal nor a question.
fn input_of<M: Machine>(item: &[u8]) -> Input<'_>
    ensures { handed {C = M.Command} result ≡ input_of {C = M.Command} item.now }
{
    if item == b"T".as_slice() {
        Input::Timeout
    } else if item == b"B".as_slice() {
        Input::Beat
    } else if item == b"C".as_slice() {
        Input::Compact
    } else {
        Input::Frame(item)
    }
}

impl<M: Words> Node<M> {
    /// Reports how the server stands.
    fn show(&self, alloc: Global, item: &[u8], outs: &mut Vec<Out>) -> Result<(), NoMemory>
        requires { item.now ≡ codes "S" }
        ensures { OnOk result ((more : List IoEvent)
            × Turn M.spec M.words M.reason item.now self.now self.now more
            × (map output_event outs.new.items ≡ map output_event outs.old.items ++ more)) }
    {
        let line = status_line(alloc, &self.server)?;
        put_line(line, outs)
    }

    /// Reports what the server knows of a ticket.
    fn answer(&self, alloc: Global, item: &[u8], outs: &mut Vec<Out>) -> Result<(), NoMemory>
        requires { is_question item.now ≡ true }
        ensures { OnOk result ((more : List IoEvent)
            × Turn M.spec M.words M.reason item.now self.now self.now more
            × (map output_event outs.new.items ≡ map output_event outs.old.items ++ more)) }
    {
        match read_ticket(behind_first(item)) {
            Ok((index, term)) => {
                let word = proposal_word(self.server.proposal_status(Ticket { index, term }));
                let line = proposal_line(alloc, index.get(), term.get(), word)?;
                put_line(line, outs)
            }
            Err(refusal) => decline::<M>(alloc, refusal, outs),
        }
    }

    /// Proposes a command.
    fn propose(
        &mut self,
        alloc: Global,
        item: &[u8],
        change: &mut LogDelta,
        outs: &mut Vec<Out>,
    ) -> Result<(), NoMemory>
        requires other { item.now ≢ codes "S" }
        requires is { is_proposal item.now ≡ true }
        ensures turn { OnOk result ((more : List IoEvent)
            × Turn M.spec M.words M.reason item.now self.old self.new more
            × (map output_event outs.new.items ≡ map output_event outs.old.items ++ more)) }
        ensures change { OnOk result ((first : Stored M M.Command) →
            IsDelta change.old first (stored_part self.old) →
            IsDelta change.new first (stored_part self.new)) }
    {
        let command = match read_command::<M>(alloc, behind_first(item)) {
            Ok(command) => command,
            Err(refusal) => return decline::<M>(alloc, refusal, outs),
        };
        let last = self.server.last();
        let _covered = self.server.covered();
        match self.server.propose(command) {
            Ok(ticket) => {
                *change = joined::<M>(*change, LogDelta::Behind(last));
                let line = ticket_line(alloc, ticket.index.get(), ticket.term.get())?;
                put_line(line, outs)
            }
            Err(refusal) => decline::<M>(alloc, refusal, outs),
        }
    }

    /// Hands the server a frame, or an event of its own.
    fn step(
        &mut self,
        alloc: Global,
        item: &[u8],
        change: &mut LogDelta,
        outs: &mut Vec<Out>,
    ) -> Result<(), NoMemory>
        requires other { item.now ≢ codes "S" }
        requires no_proposal { is_proposal item.now ≡ false }
        requires no_question { is_question item.now ≡ false }
        ensures turn { OnOk result ((more : List IoEvent)
            × Turn M.spec M.words M.reason item.now self.old self.new more
            × (map output_event outs.new.items ≡ map output_event outs.old.items ++ more)) }
        ensures change { OnOk result ((first : Stored M M.Command) →
            IsDelta change.old first (stored_part self.old) →
            IsDelta change.new first (stored_part self.new)) }
    {
        let before = remember(alloc, &self.server)?;
        let mut frames = Frames::new(alloc);
        match self.server.step(input_of::<M>(item), &mut frames) {
            Ok(()) => {
                self.server.covered_is_committed();
                let delta = delta_of(&self.server, item, &before);
                *change = joined::<M>(*change, delta);
                put_frames(alloc, &frames, outs)
            }
            Err(refusal) => decline::<M>(alloc, refusal, outs),
        }
    }
}

/// What an item that the server took changed of what it stores. Of a Compact it is not asked.
fn delta_of<M: Machine>(server: &Raft<M>, item: &[u8], before: &Option<Before>) -> LogDelta
    ensures { (old : RaftView M M.Command) → IfSome before.now (λ b. Remembers b old) →
        MayKeepLog (input_of {C = M.Command} item.now) old server.now →
        IsDelta result (stored_part old) (stored_part server.now) }
{
    if item == b"C".as_slice() {
        return LogDelta::Whole;
    }
    match before {
        Some(before) => changed(server, before),
        None => LogDelta::Whole,
    }
}

impl<M: Words> Actor for Node<M> {
    type Part = Stable<M>;

    type Change = LogDelta;

    ghost replay = { raft_replay M.spec };

    ghost part = { stored_part };

    ghost leads = { IsDelta };

    ghost turn = { Turn M.spec M.words M.reason };

    ghost outputs = { outputs_alone M.spec M.words M.reason };

    fn unchanged() -> LogDelta {
        LogDelta::Nothing
    }

    fn take(
        &mut self,
        alloc: Global,
        item: &[u8],
        change: &mut LogDelta,
        outs: &mut Vec<Out>,
    ) -> Result<(), NoMemory> {
        if item == b"S".as_slice() {
            self.show(alloc, item, outs)
        } else if begins_with(item, b'P') {
            self.propose(alloc, item, change, outs)
        } else if begins_with(item, b'Q') {
            self.answer(alloc, item, outs)
        } else {
            self.step(alloc, item, change, outs)
        }
    }

    fn save(&self, change: &LogDelta, out: &mut Vec<u8>) -> Result<Saving, NoMemory> {
        stable_texts_are_whole::<M>();
        changes_lead::<M>();
        match change {
            LogDelta::Nothing => Ok(Saving::Nothing),
            LogDelta::Whole => Ok(Saving::Whole),
            LogDelta::Behind(keep) => {
                let keep = *keep;
                if keep.get() < self.server.covered().get()
                    || keep.get() > self.server.last().get()
                {
                    return Ok(Saving::Whole);
                }
                self.server.write_change(keep, out)?;
                Ok(Saving::Change)
            }
        }
    }

    fn whole(&self, out: &mut Vec<u8>) -> Result<(), NoMemory> {
        stable_texts_are_whole::<M>();
        self.server.write_stable(out)
    }
}
