ghost use Rattle.fields_model.specs.Format.{GivesExactly};
ghost use Rattle.wire.specs.Grammar.{vote_request, vote_reply};
ghost use Rattle.wire.specs.Laws.GrammarLaws.{vote_request_lawful, vote_reply_lawful};

use fields::{Field, read_bool, read_index, read_term, write_bool, write_index, write_term};
use rows::{Index, NoMemory, Refusal, Term, Version};
use std::alloc::Global;

/// A candidate asks for a vote. (Raft, Figure 2, RequestVote.)
#[derive(Clone, Copy, Debug, PartialEq, Eq)]
pub struct VoteRequest {
    /// The term in which the sender is a candidate.
    pub term: Term,
    /// The place of the last entry of its log.
    pub last_index: Index,
    /// The term of that entry, or 0 where the log is empty.
    pub last_term: Term,
}

/// The answer to a candidate. (Raft, Figure 2, RequestVote.)
#[derive(Clone, Copy, Debug, PartialEq, Eq)]
pub struct VoteReply {
    /// The sender's term.
    pub term: Term,
    /// The term of the request that this answers.
    pub asked: Term,
    /// Whether the candidate has the sender's vote.
    pub granted: bool,
}

impl Field for VoteRequest {
    ghost format = { λ _. vote_request };

    ghost lawful = { λ _. vote_request_lawful };

    fn read_at(
        _version: Version,
        _alloc: Global,
        bytes: &[u8],
        at: usize,
    ) -> Result<(VoteRequest, usize), Refusal>
        ensures { GivesExactly result (vote_request.read bytes.now at) }
    {
        let (term, at) = read_term(bytes, at)?;
        let (last_index, at) = read_index(bytes, at)?;
        let (last_term, at) = read_term(bytes, at)?;
        Ok((
            VoteRequest {
                term,
                last_index,
                last_term,
            },
            at,
        ))
    }

    fn append(&self, out: &mut Vec<u8>) -> Result<(), NoMemory> {
        write_term(&self.term, out)?;
        write_index(&self.last_index, out)?;
        write_term(&self.last_term, out)
    }
}

impl Field for VoteReply {
    ghost format = { λ _. vote_reply };

    ghost lawful = { λ _. vote_reply_lawful };

    fn read_at(
        _version: Version,
        _alloc: Global,
        bytes: &[u8],
        at: usize,
    ) -> Result<(VoteReply, usize), Refusal>
        ensures { GivesExactly result (vote_reply.read bytes.now at) }
    {
        let (term, at) = read_term(bytes, at)?;
        let (asked, at) = read_term(bytes, at)?;
        let (granted, at) = read_bool(bytes, at)?;
        Ok((
            VoteReply {
                term,
                asked,
                granted,
            },
            at,
        ))
    }

    fn append(&self, out: &mut Vec<u8>) -> Result<(), NoMemory> {
        write_term(&self.term, out)?;
        write_term(&self.asked, out)?;
        write_bool(&self.granted, out)
    }
}
