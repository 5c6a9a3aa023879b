//! The lines that the standard error is told.
ghost use Rattle.std.specs.Prelude.{◌≡◌, ◌↔◌, ◌++◌, ℕ, List, Option, IfOk, IsOk, MatchOption, OnOk, Some, None};
ghost use Rattle.rows.specs.declared.refusal.Refusal.{Refusal};
ghost use Rattle.example_bank_server.specs.Lines.{Shows, ShowsState, applied_text, balance_text, bank_reason, bank_words, reason_or, refused_line, role_word, server_text, proposal_line, proposal_word, ticket_line};

use example_bank::{AccountId, Bank};
use machine::Machine;
use raft_core::{ProposalStatus, Raft, Role};
use rows::{NoMemory, Refusal, ServerId};
use std::alloc::Global;
use std::io;
use std::io::Write;

/// A machine whose state can be told in a few words.
pub trait Words: Machine {
    /// The words, with a space in front.
    ghost words: { Self → List ℕ };

    /// Why it refuses a command, in its own words, where it has some.
    ghost reason: { Refusal → Option (List ℕ) };

    /// Puts the words to the end of a line.
    fn tell(&self, line: &mut Vec<u8>) -> Result<(), NoMemory>
        ensures { OnOk result (line.new.items ≡ line.old.items ++ words self.now) };

    /// Why it refuses a command.
    fn reason_of(refusal: &Refusal) -> Option<&'static str>
        ensures { MatchOption result (reason refusal.now ≡ None)
            (λ text. reason refusal.now ≡ Some text.now) };
}

/// ` balances`, and each balance in order.
impl Words for Bank {
    ghost words = { bank_words };

    ghost reason = { bank_reason };

    fn reason_of(refusal: &Refusal) -> Option<&'static str> {
        match refusal {
            Refusal::OutOfRange => {
                Some("no such account, too little money in it, or no room for more")
            }
            Refusal::TableFull => Some("there are as many accounts as there may be"),
            _ => None,
        }
    }

    fn tell(&self, line: &mut Vec<u8>) -> Result<(), NoMemory> {
        written(write!(line, " balances"))?;
        for number in 0..self.accounts() {
            let Some(balance) = self.balance(AccountId::new(number as u16)) else {
                unreachable!()
            };
            put_balance(balance.get(), line)?;
        }
        Ok(())
    }
}

/// Puts a balance to the end, with a space in front.
fn put_balance(balance: u64, line: &mut Vec<u8>) -> Result<(), NoMemory>
    ensures { OnOk result (line.new.items ≡ line.old.items ++ balance_text balance) }
{
    written(write!(line, " {balance}"))
}

/// What was written to a buffer, or that there was no memory.
fn written(done: io::Result<()>) -> Result<(), NoMemory>
    ensures { IsOk result ↔ IsOk done }
{
    match done {
        Ok(()) => Ok(()),
        Err(_) => Err(NoMemory),
    }
}

/// `refused N: WORDS`, in the machine's words where it has some.
pub fn refused_line<M: Words>(alloc: Global, refusal: Refusal) -> Result<Vec<u8>, NoMemory>
    ensures { IfOk result (λ line. line.items ≡ refused_line M.reason refusal) }
{
    let mut line = Vec::new(alloc);
    let number = refusal.number();
    match M::reason_of(&refusal) {
        Some(reason) => written(writeln!(line, "refused {number}: {reason}"))?,
        None => written(writeln!(line, "refused {number}: {refusal}"))?,
    }
    Ok(line)
}

/// `ticket INDEX TERM`.
pub fn ticket_line(alloc: Global, index: u64, term: u64) -> Result<Vec<u8>, NoMemory>
    ensures { IfOk result (λ line. line.items ≡ ticket_line index term) }
{
    let mut line = Vec::new(alloc);
    written(writeln!(line, "ticket {index} {term}"))?;
    Ok(line)
}

/// What a server knows of a ticket.
pub fn proposal_word(standing: Option<ProposalStatus>) -> &'static str
    ensures { result.now ≡ proposal_word standing }
{
    match standing {
        None => "down",
        Some(ProposalStatus::Pending) => "open",
        Some(ProposalStatus::Committed) => "settled",
        Some(ProposalStatus::Superseded) => "lost",
        Some(ProposalStatus::Compacted) => "covered",
    }
}

/// `standing INDEX TERM WORD`.
pub fn proposal_line(alloc: Global, index: u64, term: u64, word: &str) -> Result<Vec<u8>, NoMemory>
    ensures { IfOk result (λ line. line.items ≡ proposal_line index term word.now) }
{
    let mut line = Vec::new(alloc);
    written(writeln!(line, "standing {index} {term} {word}"))?;
    Ok(line)
}

/// `server K ROLE term T last L applied A`, and the words of the state.
pub fn status_line<M: Words>(alloc: Global, server: &Raft<M>) -> Result<Vec<u8>, NoMemory>
    ensures { IfOk result (λ line. Shows M.spec M.words server.now line.items) }
{
    let mut line = Vec::new(alloc);
    let me = server.me();
    let role = role_word(server.role());
    let term = server.term().get();
    let last = server.last().get();
    put_server(me, role, term, last, &mut line)?;
    put_state(server, &mut line)?;
    line.push(b'\n')?;
    Ok(line)
}

/// What a server is doing.
fn role_word(role: Option<Role>) -> &'static str
    ensures { result.now ≡ role_word role }
{
    match role {
        None => "down",
        Some(Role::Follower) => "follower",
        Some(Role::Candidate) => "candidate",
        Some(Role::Leader) => "leader",
    }
}

/// Puts `server K ROLE term T last L` to the end.
fn put_server(
    me: ServerId,
    role: &str,
    term: u64,
    last: u64,
    line: &mut Vec<u8>,
) -> Result<(), NoMemory>
    ensures { OnOk result (line.new.items ≡ line.old.items ++ server_text me role.now term last) }
{
    written(write!(line, "server {me} {role} term {term} last {last}"))
}

/// Puts ` applied A` to the end.
fn put_applied(applied: u64, line: &mut Vec<u8>) -> Result<(), NoMemory>
    ensures { OnOk result (line.new.items ≡ line.old.items ++ applied_text applied) }
{
    written(write!(line, " applied {applied}"))
}

/// Puts to the end, of a server that is up, how many entries it has applied, and the words of the
/// state.
fn put_state<M: Words>(server: &Raft<M>, line: &mut Vec<u8>) -> Result<(), NoMemory>
    ensures { OnOk result ((told : List ℕ) × ShowsState M.spec M.words server.now told
        × (line.new.items ≡ line.old.items ++ told)) }
{
    let Some(machine) = server.machine() else {
        return Ok(());
    };
    let Some(applied) = server.applied() else {
        unreachable!()
    };
    put_applied(applied.get(), line)?;
    machine.tell(line)
}
