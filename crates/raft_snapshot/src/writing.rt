//! What a server stores, written as bytes.

ghost use Rattle.std.specs.Prelude.{◌≡◌, ◌+◌, ◌^◌, ◌<◌, ◌≤◌, ◌++◌, length, OnOk, OnErr};
ghost use Rattle.rows.specs.Versions.{newest};
ghost use Rattle.fields_model.specs.Format.{Grows, Puts};
ghost use Rattle.fields_model.specs.Services.{leader_number};
ghost use Rattle.raft_snapshot.specs.Changes.{log_change};
ghost use Rattle.raft_snapshot.specs.Stored.{Stored};
ghost use Rattle.raft_snapshot.specs.Texts.{vote, covered, entries, front, stable_text, StableFits};

use crate::log::Log;
use crate::stable::Stable;
use fields::{write_index, write_items, write_term, write_u8, write_u64};
use machine::{Coded, Entry, Machine};
use rows::{Index, NoMemory, ServerId, Term, Version};

/// The number of the server that has the vote, from 1 to 5; 0 where none was given.
fn vote_number(voted: Option<ServerId>) -> u8
    ensures value { result ≡ leader_number voted }
    ensures limit { result < 6 }
{
    match voted {
        None => 0,
        Some(server) => server.number(),
    }
}

/// Puts the vote to the end.
fn append_vote(voted: Option<ServerId>, out: &mut Vec<u8>) -> Result<(), NoMemory>
    ensures { Puts vote voted result out.old.items out.new.items }
{
    write_u8(&vote_number(voted), out)
}

/// Puts to the end how many entries are covered, and the last one's term.
fn append_covered(index: Index, term: Term, out: &mut Vec<u8>) -> Result<(), NoMemory>
    requires { index ≡ 0 → term ≡ 0 }
    ensures { Puts covered (index, term) result out.old.items out.new.items }
{
    write_index(&index, out)?;
    write_term(&term, out)
}

/// Puts the entries behind those that are covered to the end, behind their count.
#[tactic(auto, using(crate::proofs::TextRules::appends))]
fn write_entries<M: Machine>(
    index: Index,
    behind: &[Entry<Coded<M>>],
    out: &mut Vec<u8>,
) -> Result<(), NoMemory>
    requires { index + length behind.now < 2 ^ 40 }
    ensures { Puts (entries (M.spec.commands newest) index) behind.now result
        out.old.items out.new.items }
{
    write_u64(&(behind.len() as u64), out)?;
    write_items(behind, out)
}

/// Puts to the end a term, a vote, how many entries of a log stay, the last one's term, and the
/// entries behind them.
#[tactic(auto, using(crate::proofs::TextRules::appends, crate::proofs::Logs::term_at_zero))]
fn append_change<M: Machine>(
    term: Term,
    voted: Option<ServerId>,
    log: &Log<M>,
    keep: Index,
    out: &mut Vec<u8>,
) -> Result<(), NoMemory>
    requires covered { log.now.base.index ≤ keep }
    requires within { keep ≤ length log.now.entries }
    ensures { Puts (front (M.spec.commands newest)) (log_change term voted log.now keep) result
        out.old.items out.new.items }
{
    let _last = log.last();
    let Some(kept_term) = log.term_at(keep.get()) else {
        unreachable!()
    };
    write_term(&term, out)?;
    append_vote(voted, out)?;
    append_covered(keep, kept_term, out)?;
    write_entries(keep, log.behind(keep.get()), out)
}

/// Puts to the end what led to this term, vote and log, where so many first entries were the same
/// before, or changes nothing: the term, the vote, the number of these entries, the last one's
/// term, and the entries behind them. It costs what these entries do, and not the log.
pub fn write_change<M: Machine>(
    term: Term,
    vote: Option<ServerId>,
    log: &Log<M>,
    keep: Index,
    out: &mut Vec<u8>,
) -> Result<(), NoMemory>
    requires covered { log.now.base.index ≤ keep }
    requires within { keep ≤ length log.now.entries }
    ensures ok { OnOk result ((front (M.spec.commands newest)).Fits (log_change term vote log.now keep)
        × (out.new.items ≡ out.old.items
        ++ (front (M.spec.commands newest)).text (log_change term vote log.now keep))) }
    ensures err { OnErr result (out.new.items ≡ out.old.items) }
{
    let start = out.len();
    let done = append_change(term, vote, log, keep, out);
    if done.is_err() {
        out.truncate(start);
    }
    done
}

/// Puts what is stored, of its parts, to the end; after an error a part of it may stand there.
#[tactic(auto, using(crate::proofs::TextRules::appends))]
fn append_parts<M: Machine>(
    term: Term,
    voted: Option<ServerId>,
    log: &Log<M>,
    out: &mut Vec<u8>,
) -> Result<(), NoMemory>
    ensures ok { let stored : Stored M M.Command = record { term = term; vote = voted; log = log.now } in
        OnOk result (StableFits M.spec newest stored
        × (out.new.items ≡ out.old.items ++ stable_text M.spec newest stored)) }
    ensures err { OnErr result (Grows out.old.items out.new.items) }
{
    let _last = log.last();
    write_u8(&Version::newest().number(), out)?;
    append_change(term, voted, log, log.covered(), out)?;
    log.state().save(out)
}

/// Puts the one text of what a server stores, of its parts, to the end, or changes nothing.
pub fn write_parts<M: Machine>(
    term: Term,
    vote: Option<ServerId>,
    log: &Log<M>,
    out: &mut Vec<u8>,
) -> Result<(), NoMemory>
    ensures ok { let stored : Stored M M.Command = record { term = term; vote = vote; log = log.now } in
        OnOk result (StableFits M.spec newest stored
        × (out.new.items ≡ out.old.items ++ stable_text M.spec newest stored)) }
    ensures err { OnErr result (out.new.items ≡ out.old.items) }
{
    let start = out.len();
    let done = append_parts(term, vote, log, out);
    if done.is_err() {
        out.truncate(start);
    }
    done
}

/// Puts the one text of what a server stores to the end, or changes nothing: the version, which is
/// the newest, the term, the vote, how many entries are covered, the last one's term, the entries
/// behind them, and the state after those that are covered.
pub fn write_stable<M: Machine>(stable: &Stable<M>, out: &mut Vec<u8>) -> Result<(), NoMemory>
    ensures ok { OnOk result (StableFits M.spec newest stable.now
        × (out.new.items ≡ out.old.items ++ stable_text M.spec newest stable.now)) }
    ensures err { OnErr result (out.new.items ≡ out.old.items) }
{
    write_parts(stable.term(), stable.vote(), stable.log(), out)
}
