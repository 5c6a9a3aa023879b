//! Three servers with a bank. They elect a leader, take commands and refuse some; server 3 loses
//! messages and restarts, and server 2 leads after server 1 has crashed, with whom one command is
//! lost. Then server 3 is away while the log is compacted, gets a snapshot, and leads. Each ticket
//! is kept, and servers are asked of it. The messages, the balances and where each command stands
//! are counted by hand, from Raft, extended version 2014, sections 5 and 7, Figures 2 and 13, and
//! from the bank's rules.
use example_bank::{AccountId, Bank, BankCommand, Money, bank_of};
use machine::Machine;
use raft_core::{ProposalStatus, Ticket};
use rows::{Refusal, ServerId, Version};
use std::alloc::Global;
use world::{Done, RaftEvent, RaftWorld};

/// What happens. Messages and servers are numbered from 1.
#[derive(Clone, Copy)]
pub(super) enum Step {
    Deliver(u64),
    Timeout(u8),
    Beat(u8),
    Compact(u8),
    Crash(u8),
    Restart(u8),
    // What a server is asked for.
    Open(u8),
    Deposit(u8, u16, u64),
    Withdraw(u8, u16, u64),
    Transfer(u8, u16, u16, u64),
    // What a server is asked of the k-th ticket, from 0, and what it knows.
    Ask(u8, usize, Option<ProposalStatus>),
    // The index and the term of the ticket that was given last.
    Stands(u64, u64),
}

use Step::{
    Ask, Beat, Compact, Crash, Deliver, Deposit, Open, Restart, Stands, Timeout, Transfer, Withdraw,
};

/// A bank: how many commands were applied, and the balances. None of a server that is down.
type Known = Option<(u64, &'static [u64])>;

/// A step; the number of the refusal, 0 where there is none; and the banks of the three servers
/// then.
type Row = (Step, u8, &'static [Known]);

const OPEN: Option<ProposalStatus> = Some(ProposalStatus::Pending);

const SETTLED: Option<ProposalStatus> = Some(ProposalStatus::Committed);

const LOST: Option<ProposalStatus> = Some(ProposalStatus::Superseded);

const COVERED: Option<ProposalStatus> = Some(ProposalStatus::Compacted);

const DOWN: Known = None;

const NEW: Known = Some((0, &[]));

// After the first leader's entries: its no-op, two accounts, 100 paid into the first, 30 moved to
// the second, and 10 paid out of that.
const SIX: Known = Some((6, &[70, 20]));

// And after the second leader's: its no-op, and 5 paid into the second account.
const EIGHT: Known = Some((8, &[70, 25]));

// 30 more for the first account.
const NINE: Known = Some((9, &[100, 25]));

// And after the third leader's: its no-op, and 60 moved to the second account.
const ELEVEN: Known = Some((11, &[40, 85]));

const ROWS: &[Row] = &[
    // Server 1 asks for votes by messages 1 and 2. Server 2 votes by message 3; server 3 loses its.
    (Timeout(1), 0, &[NEW, NEW, NEW]),
    (Deliver(1), 0, &[NEW, NEW, NEW]),
    (Open(1), 2, &[NEW, NEW, NEW]),
    (Deliver(3), 0, &[NEW, NEW, NEW]),
    // It leads. What it refuses would break a rule after all that it has taken so far.
    (Deposit(1, 0, 100), 12, &[NEW, NEW, NEW]),
    (Open(1), 0, &[NEW, NEW, NEW]),
    (Open(1), 0, &[NEW, NEW, NEW]),
    (Deposit(1, 0, 100), 0, &[NEW, NEW, NEW]),
    // Behind the no-op and two accounts.
    (Stands(4, 1), 0, &[NEW, NEW, NEW]),
    (Deposit(1, 0, 1_000_000_000_000), 12, &[NEW, NEW, NEW]),
    (Deposit(1, 2, 1), 12, &[NEW, NEW, NEW]),
    (Transfer(1, 0, 1, 101), 12, &[NEW, NEW, NEW]),
    (Transfer(1, 0, 2, 1), 12, &[NEW, NEW, NEW]),
    (Transfer(1, 0, 0, 1), 12, &[NEW, NEW, NEW]),
    (Transfer(1, 0, 1, 30), 0, &[NEW, NEW, NEW]),
    (Withdraw(1, 1, 31), 12, &[NEW, NEW, NEW]),
    (Withdraw(1, 1, 10), 0, &[NEW, NEW, NEW]),
    // Messages 4 and 5 bring the six entries; server 3 loses its. Message 6 says that server 2 has
    // them, so two of three have.
    (Beat(1), 0, &[NEW, NEW, NEW]),
    (Deliver(4), 0, &[NEW, NEW, NEW]),
    (Ask(1, 2, OPEN), 0, &[NEW, NEW, NEW]),
    (Deliver(6), 0, &[SIX, NEW, NEW]),
    (Ask(1, 2, SETTLED), 0, &[SIX, NEW, NEW]),
    (Ask(2, 2, OPEN), 0, &[SIX, NEW, NEW]),
    (Crash(3), 0, &[SIX, NEW, DOWN]),
    (Ask(3, 2, None), 0, &[SIX, NEW, DOWN]),
    (Ask(4, 2, None), 0, &[SIX, NEW, DOWN]),
    // Messages 7 and 8 say what is committed, and 8 has the six entries once more.
    (Beat(1), 0, &[SIX, NEW, DOWN]),
    (Deliver(8), 16, &[SIX, NEW, DOWN]),
    (Restart(3), 0, &[SIX, NEW, NEW]),
    (Deliver(7), 0, &[SIX, SIX, NEW]),
    (Deliver(8), 0, &[SIX, SIX, SIX]),
    (Deliver(8), 0, &[SIX, SIX, SIX]),
    (Deliver(4), 0, &[SIX, SIX, SIX]),
    (Ask(2, 4, SETTLED), 0, &[SIX, SIX, SIX]),
    // A command that server 1 sends to nobody before it crashes.
    (Deposit(1, 0, 7), 0, &[SIX, SIX, SIX]),
    (Stands(7, 1), 0, &[SIX, SIX, SIX]),
    (Ask(1, 5, OPEN), 0, &[SIX, SIX, SIX]),
    // Those are answered by messages 9 to 12. Server 2 asks for votes by messages 13 and 14, and
    // has server 3's by message 15.
    (Crash(1), 0, &[DOWN, SIX, SIX]),
    (Timeout(2), 0, &[DOWN, SIX, SIX]),
    (Deliver(14), 0, &[DOWN, SIX, SIX]),
    (Deliver(15), 0, &[DOWN, SIX, SIX]),
    (Deposit(2, 1, 5), 0, &[DOWN, SIX, SIX]),
    // Behind the second leader's no-op, which stands where the lost command stood.
    (Stands(8, 2), 0, &[DOWN, SIX, SIX]),
    // Messages 16 and 17 bring its two entries; server 3 says by message 18 that it has them.
    (Beat(2), 0, &[DOWN, SIX, SIX]),
    (Deliver(17), 0, &[DOWN, SIX, SIX]),
    (Deliver(18), 0, &[DOWN, EIGHT, SIX]),
    (Ask(2, 5, LOST), 0, &[DOWN, EIGHT, SIX]),
    (Ask(2, 6, SETTLED), 0, &[DOWN, EIGHT, SIX]),
    (Ask(3, 5, OPEN), 0, &[DOWN, EIGHT, SIX]),
    // Server 1 begins from nothing, and is told by message 16 what was committed when it was sent.
    (Restart(1), 0, &[NEW, EIGHT, SIX]),
    (Deliver(16), 0, &[SIX, EIGHT, SIX]),
    // Its answer, message 19, is lost. Messages 20 and 21 say what is committed now.
    (Beat(2), 0, &[SIX, EIGHT, SIX]),
    (Deliver(21), 0, &[SIX, EIGHT, EIGHT]),
    (Deliver(20), 0, &[EIGHT, EIGHT, EIGHT]),
    (Ask(1, 5, LOST), 0, &[EIGHT, EIGHT, EIGHT]),
    // Those are answered by messages 22 and 23, which are lost. Messages 24 and 25 bring one more
    // entry; server 1 says by message 26 that it has it, and server 3 is away.
    (Crash(3), 0, &[EIGHT, EIGHT, DOWN]),
    (Deposit(2, 0, 30), 0, &[EIGHT, EIGHT, DOWN]),
    (Beat(2), 0, &[EIGHT, EIGHT, DOWN]),
    (Deliver(24), 0, &[EIGHT, EIGHT, DOWN]),
    (Deliver(26), 0, &[EIGHT, NINE, DOWN]),
    // The leader's snapshot covers all nine, so server 3 gets it by message 28, in place of the
    // ninth. That comes twice, and then the old message 25, and neither changes anything.
    (Ask(2, 7, SETTLED), 0, &[EIGHT, NINE, DOWN]),
    (Compact(2), 0, &[EIGHT, NINE, DOWN]),
    (Ask(2, 7, COVERED), 0, &[EIGHT, NINE, DOWN]),
    (Ask(2, 5, COVERED), 0, &[EIGHT, NINE, DOWN]),
    (Compact(3), 16, &[EIGHT, NINE, DOWN]),
    (Compact(4), 12, &[EIGHT, NINE, DOWN]),
    (Restart(3), 0, &[EIGHT, NINE, NEW]),
    (Beat(2), 0, &[EIGHT, NINE, NEW]),
    (Deliver(28), 0, &[EIGHT, NINE, NINE]),
    (Deliver(28), 0, &[EIGHT, NINE, NINE]),
    (Deliver(25), 0, &[EIGHT, NINE, NINE]),
    (Deliver(27), 0, &[NINE, NINE, NINE]),
    (Ask(3, 7, COVERED), 0, &[NINE, NINE, NINE]),
    (Ask(1, 7, SETTLED), 0, &[NINE, NINE, NINE]),
    // Message 29 is the answer to the snapshot; 30 to 32 are lost.
    (Deliver(29), 0, &[NINE, NINE, NINE]),
    // A server begins again with what its snapshot covers.
    (Compact(1), 0, &[NINE, NINE, NINE]),
    (Crash(1), 0, &[DOWN, NINE, NINE]),
    (Restart(1), 0, &[NINE, NINE, NINE]),
    // Server 3 asks for votes by messages 33 and 34, has server 1's by message 35, and leads from
    // the snapshot, by whose balances it refuses and takes.
    (Crash(2), 0, &[NINE, DOWN, NINE]),
    (Timeout(3), 0, &[NINE, DOWN, NINE]),
    (Deliver(33), 0, &[NINE, DOWN, NINE]),
    (Deliver(35), 0, &[NINE, DOWN, NINE]),
    (Transfer(3, 0, 1, 101), 12, &[NINE, DOWN, NINE]),
    (Transfer(3, 0, 1, 60), 0, &[NINE, DOWN, NINE]),
    // Messages 36 and 37 bring its two entries; server 1 says by message 38 that it has them.
    (Beat(3), 0, &[NINE, DOWN, NINE]),
    (Deliver(36), 0, &[NINE, DOWN, NINE]),
    (Deliver(38), 0, &[NINE, DOWN, ELEVEN]),
    (Ask(3, 8, SETTLED), 0, &[NINE, DOWN, ELEVEN]),
    (Ask(1, 8, OPEN), 0, &[NINE, DOWN, ELEVEN]),
];

// The text of server 1's last bank: 9 commands, and two accounts with 100 and 25.
const TEXT: &[u8] = &[
    0, 0, 0, 0, 0, 0, 0, 9, 0, 0, 0, 2, //
    0, 0, 0, 0, 0, 0, 0, 100, 0, 0, 0, 0, 0, 0, 0, 25,
];

pub(super) fn command_of(step: Step) -> Option<BankCommand> {
    Some(match step {
        Open(_) => BankCommand::Open,
        Deposit(_, account, amount) => {
            BankCommand::Deposit(AccountId::new(account), Money::new(amount)?)
        }
        Withdraw(_, account, amount) => {
            BankCommand::Withdraw(AccountId::new(account), Money::new(amount)?)
        }
        Transfer(_, from, to, amount) => BankCommand::Transfer(
            AccountId::new(from),
            AccountId::new(to),
            Money::new(amount)?,
        ),
        _ => return None,
    })
}

/// The event of a step that proposes nothing, and asks nothing.
pub(super) fn event_of(step: Step) -> Option<RaftEvent<Bank>> {
    Some(match step {
        Deliver(message) => RaftEvent::Deliver(message),
        Timeout(server) => RaftEvent::Timeout(ServerId::from_number(server)?),
        Beat(server) => RaftEvent::Beat(ServerId::from_number(server)?),
        Compact(server) => RaftEvent::Compact(ServerId::from_number(server)?),
        Crash(server) => RaftEvent::Crash(ServerId::from_number(server)?),
        Restart(server) => RaftEvent::Restart(ServerId::from_number(server)?),
        _ => return None,
    })
}

pub(super) fn number_of(done: Result<Done, Refusal>) -> u8 {
    match done {
        Ok(Done::Taken) => 0,
        Ok(Done::Crashed) => 99,
        Err(refusal) => refusal.number(),
    }
}

fn holds(bank: &Bank, account: usize, amount: u64) -> bool {
    match u16::try_from(account) {
        Ok(account) => match bank.balance(AccountId::new(account)) {
            Some(money) => money.get() == amount,
            None => false,
        },
        Err(_) => false,
    }
}

fn has_balances(bank: &Bank, balances: &[u64]) -> bool {
    for (account, amount) in balances.iter().enumerate() {
        if !holds(bank, account, *amount) {
            return false;
        }
    }
    bank.accounts() == balances.len()
}

fn is_known(bank: Option<&Bank>, known: Known) -> bool {
    match (bank, known) {
        (None, None) => true,
        (Some(bank), Some((count, balances))) => {
            bank.count() == count && has_balances(bank, balances)
        }
        _ => false,
    }
}

fn are_known(world: &RaftWorld<Bank>, banks: &[Known]) -> bool {
    for (position, known) in banks.iter().enumerate() {
        let Some(server) = ServerId::from_position(position) else {
            return false;
        };
        if !is_known(bank_of(world, server), *known) {
            return false;
        }
    }
    true
}

/// A command is proposed, and its ticket kept.
fn propose(
    world: &mut RaftWorld<Bank>,
    server: ServerId,
    command: Box<BankCommand>,
    tickets: &mut Vec<Ticket>,
) -> u8 {
    match world.propose(server, command) {
        Ok(Some(ticket)) if tickets.push(ticket).is_ok() => 0,
        Ok(_) => 99,
        Err(refusal) => refusal.number(),
    }
}

/// 0 where the server knows this of the k-th ticket.
fn asked(
    world: &RaftWorld<Bank>,
    server: ServerId,
    ticket: Option<&Ticket>,
    known: Option<ProposalStatus>,
) -> u8 {
    match ticket {
        Some(ticket) if world.proposal_status(server, *ticket) == known => 0,
        _ => 98,
    }
}

/// 0 where the ticket is of this index and this term.
fn stands(ticket: Option<&Ticket>, index: u64, term: u64) -> u8 {
    match ticket {
        Some(ticket) if ticket.index.get() == index && ticket.term.get() == term => 0,
        _ => 97,
    }
}

/// What becomes of a step.
fn act(
    alloc: Global,
    world: &mut RaftWorld<Bank>,
    step: Step,
    tickets: &mut Vec<Ticket>,
) -> Option<u8> {
    Some(match step {
        Open(server) | Deposit(server, _, _) | Withdraw(server, _, _) | Transfer(server, _, _, _) =>
            {
                let command = Box::new(alloc, command_of(step)?).ok()?;
                propose(world, ServerId::from_number(server)?, command, tickets)
            }
        Ask(server, k, known) => {
            asked(world, ServerId::from_number(server)?, tickets.get(k), known)
        }
        Stands(index, term) => stands(tickets.last(), index, term),
        _ => number_of(world.step(event_of(step)?)),
    })
}

/// How many rows go as they say.
fn played(alloc: Global, world: &mut RaftWorld<Bank>) -> Option<usize> {
    let mut tickets = Vec::new(alloc);
    for (number, row) in ROWS.iter().enumerate() {
        let (step, refused, banks) = *row;
        let done = act(alloc, world, step, &mut tickets)?;
        if done != refused || !are_known(world, banks) {
            return Some(number);
        }
    }
    Some(ROWS.len())
}

/// Whether the bank has this text, and is what is loaded from it.
fn has_text(alloc: Global, bank: Option<&Bank>) -> bool {
    let mut text = Vec::new(alloc);
    match bank {
        Some(bank) if bank.save(&mut text).is_ok() => {
            let loaded = Bank::load(Version::newest(), alloc, &text);
            text.as_slice() == TEXT && loaded.is_ok_and(|other| is_known(Some(&other), NINE))
        }
        _ => false,
    }
}

#[test]
fn banks(rt: HostRuntime) {
    let alloc = rt.alloc();
    let Ok(mut world) = RaftWorld::new(alloc, 3) else {
        panic!(rt; "there is no group");
    };
    let rows = played(alloc, &mut world);
    assert!(rt; rows == Some(ROWS.len()), "row {rows:?}");
    let server = ServerId::from_number(1);
    assert!(rt; server.is_some_and(|server| has_text(alloc, bank_of(&world, server))));
}
