//! How a server of a world stands, in the words that its process has for it.
use example_bank::{AccountId, Bank, bank_of};
use raft_core::Role;
use rows::ServerId;
use std::alloc::Global;
use std::io::Write;
use world::RaftWorld;

fn role_word(role: Role) -> &'static str {
    match role {
        Role::Follower => "follower",
        Role::Candidate => "candidate",
        Role::Leader => "leader",
    }
}

/// Puts each balance to the end, with a space in front.
fn put_balances(bank: &Bank, line: &mut Vec<u8>) -> Option<()> {
    for account in 0..bank.accounts() {
        let balance = bank
            .balance(AccountId::new(u16::try_from(account).ok()?))?
            .get();
        write!(line, " {balance}").ok()?;
    }
    Some(())
}

/// What a server is doing, its term, how long its log is, how much it has applied, and its bank;
/// nothing of one that is down.
pub(super) fn shown(alloc: Global, world: &RaftWorld<Bank>, server: ServerId) -> Option<Vec<u8>> {
    let mut line = Vec::new(alloc);
    let raft = world.raft(server)?;
    let Some(role) = raft.role() else {
        return Some(line);
    };
    let (number, word) = (server.number(), role_word(role));
    let (term, last) = (raft.term().get(), raft.last().get());
    let applied = raft.applied()?.get();
    write!(
        line,
        "server {number} {word} term {term} last {last} applied {applied} balances"
    )
    .ok()?;
    put_balances(bank_of(world, server)?, &mut line)?;
    line.push(b'\n').ok()?;
    Some(line)
}
