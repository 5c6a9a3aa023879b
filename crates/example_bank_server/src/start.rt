//! What a server starts from.

ghost use Rattle.std.specs.Prelude.{◌≡◌, ℕ, IfErr, IfOk, OnOk, option_map};
ghost use Rattle.raft_core.specs.Steps.{IsGroupMember, RefinesRaft, Stores};
ghost use Rattle.raft_core.specs.StoredParts.{stored_part};
ghost use Rattle.raft_model.specs.Rafts.{Raft as AnyRaft, restarted};
ghost use Rattle.example_bank_server.specs.Lives.{BeginsWith, header_text};
ghost use Rattle.raft_records.specs.Starts.{IsAnothers, IsBadStore, IsStored};
ghost use Rattle.example_bank_server.specs.declared.start.StartError.TheVariants as errors;

use machine::Machine;
use raft_core::Raft;
use raft_records::{Unread, stable_of};
use rows::{Refusal, ServerId};
use std::alloc::Global;

/// Why no server begins.
#[derive(Clone, Copy, Debug, Drop)]
pub enum StartError {
    /// The group has no server of this number, or its size is not 3 or 5.
    NoMember,
    /// The store is the journal of another server, or of a group of another size.
    Another,
    /// What the store has is no stored part: with the offset of its first fault, or of the record
    /// that is damaged, from 0.
    BadStore(usize),
    /// There was no memory.
    NoMemory,
}

/// The server of what the store has, or where there is none a new one. The header is the first line
/// of its journal.
pub fn begin<M: Machine>(
    alloc: Global,
    me: ServerId,
    size: usize,
    header: &[u8],
    stored: Option<&[u8]>,
) -> Result<Raft<M>, StartError>
    ensures member { OnOk result (IsGroupMember size me) }
    ensures place { IfOk result (λ server. (server.me ≡ me) × (server.size ≡ size)) }
    ensures stored { IfOk result (λ server. IsStored M.spec header.now
        (option_map (λ text. text.now) stored.entry) (stored_part server)) }
    ensures server { IfOk result (λ server. (s : AnyRaft M.Command) →
        Stores M.spec (stored_part server) s → RefinesRaft M.spec server (restarted s)) }
    ensures begins { IfOk result (λ server. header.now ≡ header_text size me →
        BeginsWith M.spec size me (option_map (λ text. text.now) stored.entry) server) }
    ensures outside { IfErr result (λ error. error ≡ errors.NoMember → IsGroupMember size me → ⊥) }
    ensures fault { IfErr result (λ error. (place : ℕ) → error ≡ errors.BadStore place →
        IsBadStore M.spec header.now (option_map (λ text. text.now) stored.entry) place) }
    ensures another { IfErr result (λ error. error ≡ errors.Another →
        IsAnothers header.now (option_map (λ text. text.now) stored.entry)) }
{
    let stable = match stable_of(alloc, header, stored) {
        Ok(stable) => stable,
        Err(Unread::NoMemory) => return Err(StartError::NoMemory),
        Err(Unread::Another) => return Err(StartError::Another),
        Err(Unread::At(place)) => return Err(StartError::BadStore(place)),
    };
    match Raft::restart(alloc, me, size, stable) {
        Ok(server) => Ok(server),
        Err(refused) => match refused.refusal {
            Refusal::NoMemory => Err(StartError::NoMemory),
            _ => Err(StartError::NoMember),
        },
    }
}
