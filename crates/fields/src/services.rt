//! What workers and the leader's desk tell each other, and what an agent is told and shown, as
//! bytes.
ghost use Rattle.std.specs.Prelude.{◌≡◌};
ghost use Rattle.rows.specs.Rising.{is_behind};
ghost use Rattle.rows.specs.Ids.{alloc_cmp, node_rises};
ghost use Rattle.rows.specs.Listings.{listed_id, listed_rises};
ghost use Rattle.fields_model.specs.Format.{GivesExactly, Puts, Writes, number};
ghost use Rattle.fields_model.specs.Services.{eval_outcome, place_count, node_id_behind, rising_nodes, plan_result, leader_number, told_leader, told_of, told_parts, told_from, told_reason, reason, no_pair, a_pair, asked_request, client_request_kind, live_state, listed_allocation, listed_allocation_behind, listing};
ghost use Rattle.fields_model.proofs.ServiceLaws.{eval_outcome_lawful, place_count_lawful, node_id_is_ruled, rising_nodes_lawful, plan_result_lawful, reason_lawful, asked_request_lawful, client_request_kind_lawful, live_state_lawful, listed_allocation_lawful, listed_allocation_is_ruled, listing_lawful};

use crate::field::Field;
use crate::list::{append_counted, append_long_counted};
use crate::reading::{read_index, read_u8, read_zero};
use crate::ruled::{RuledField, read_long_ruled_list, read_ruled_list};
use crate::writing::{take_back, write_u8};
use rows::{
    AllocId, AskedRequest, ClientRequestKind, EvalId, EvalOutcome, Index, Leader, ListedAllocation,
    Listing, LiveState, NoMemory, NodeId, PlaceCount, PlanResult, Ranged, Reason, Refusal,
    RisingNodes, Ruled, ServerId, Size, Token, Version,
};
use std::alloc::Global;

/// One byte, 1 blocked, 2 complete or 3 failed, and the index of the state at which the evaluation
/// was found blocked, which is 0 for any other.
impl Field for EvalOutcome {
    ghost format = { λ _. eval_outcome };

    ghost lawful = { λ _. eval_outcome_lawful };

    fn read_at(
        _version: Version,
        _alloc: Global,
        bytes: &[u8],
        at: usize,
    ) -> Result<(EvalOutcome, usize), Refusal>
        ensures { GivesExactly result (eval_outcome.read bytes.now at) }
    {
        match read_u8(bytes, at)? {
            (1, at) => {
                let (snapshot, end) = read_index(bytes, at)?;
                Ok((EvalOutcome::Blocked(snapshot), end))
            }
            (2, at) => {
                let (_, end) = read_zero(bytes, at)?;
                Ok((EvalOutcome::Complete, end))
            }
            (3, at) => {
                let (_, end) = read_zero(bytes, at)?;
                Ok((EvalOutcome::Failed, end))
            }
            _ => Err(Refusal::Frame(at)),
        }
    }

    fn append(&self, out: &mut Vec<u8>) -> Result<(), NoMemory> {
        let (status, snapshot) = match self {
            EvalOutcome::Blocked(snapshot) => (1, *snapshot),
            EvalOutcome::Complete => (2, Index::ZERO),
            EvalOutcome::Failed => (3, Index::ZERO),
        };
        write_u8(&status, out)?;
        snapshot.append(out)
    }
}

/// One byte, at most 64.
impl Field for PlaceCount {
    ghost format = { λ _. place_count };

    ghost lawful = { λ _. place_count_lawful };

    fn read_at(
        _version: Version,
        _alloc: Global,
        bytes: &[u8],
        at: usize,
    ) -> Result<(PlaceCount, usize), Refusal>
        ensures { GivesExactly result (place_count.read bytes.now at) }
    {
        let (number, next) = read_u8(bytes, at)?;
        match PlaceCount::new(number) {
            Some(count) => Ok((count, next)),
            None => Err(Refusal::Frame(at)),
        }
    }

    fn append(&self, out: &mut Vec<u8>) -> Result<(), NoMemory> {
        write_u8(&self.get(), out)
    }
}

/// Nodes that are listed by themselves rise strictly: one that does not is a fault at its byte.
impl RuledField for NodeId {
    ghost rule = { node_rises };

    ghost behind = { λ _. node_id_behind };

    ghost ruled = { λ _. node_id_is_ruled };

    fn read_behind(
        version: Version,
        alloc: Global,
        bytes: &[u8],
        at: usize,
        front: &[NodeId],
    ) -> Result<(NodeId, usize), Refusal>
        ensures { GivesExactly result ((node_id_behind front.now).read bytes.now at) }
    {
        let (node, next) = NodeId::read_at(version, alloc, bytes, at)?;
        if node.may_follow(front) {
            Ok((node, next))
        } else {
            Err(Refusal::Frame(at))
        }
    }
}

/// A count of one byte, which has no limit of its own, and that many nodes that rise strictly.
impl Field for RisingNodes {
    ghost format = { λ _. rising_nodes };

    ghost lawful = { λ _. rising_nodes_lawful };

    fn read_at(
        version: Version,
        alloc: Global,
        bytes: &[u8],
        at: usize,
    ) -> Result<(RisingNodes, usize), Refusal> {
        let (items, next) = read_ruled_list(version, alloc, bytes, at, 255)?;
        match RisingNodes::check(items) {
            Ok(nodes) => Ok((nodes, next)),
            Err(_) => unreachable!(),
        }
    }

    fn append(&self, out: &mut Vec<u8>) -> Result<(), NoMemory> {
        self.ranges();
        append_counted(self.as_slice(), 255, out)
    }
}

/// The evaluation, the token, the last index, how many were placed, and the nodes refused.
impl Field for PlanResult {
    ghost format = { λ _. plan_result };

    ghost lawful = { λ _. plan_result_lawful };

    fn read_at(
        version: Version,
        alloc: Global,
        bytes: &[u8],
        at: usize,
    ) -> Result<(PlanResult, usize), Refusal> {
        let (eval, at) = EvalId::read_at(version, alloc, bytes, at)?;
        let (token, at) = Token::read_at(version, alloc, bytes, at)?;
        let (last, at) = Index::read_at(version, alloc, bytes, at)?;
        let (placed, at) = PlaceCount::read_at(version, alloc, bytes, at)?;
        let (refused, at) = RisingNodes::read_at(version, alloc, bytes, at)?;
        Ok((
            PlanResult {
                eval,
                token,
                last,
                placed,
                refused,
            },
            at,
        ))
    }

    fn append(&self, out: &mut Vec<u8>) -> Result<(), NoMemory> {
        self.eval.append(out)?;
        self.token.append(out)?;
        self.last.append(out)?;
        self.placed.append(out)?;
        self.refused.append(out)
    }
}

/// The leader that a refusal of this number tells: 0 for none, which each but number 2 has.
fn read_leader(bytes: &[u8], at: usize, refusal: u8) -> Result<(Leader, usize), Refusal>
    ensures { GivesExactly result ((told_leader refusal).read bytes.now at) }
{
    let (number, next) = read_u8(bytes, at)?;
    if number == 0 {
        return Ok((Leader::new(None), next));
    }
    if refusal != 2 {
        return Err(Refusal::Frame(at));
    }
    match ServerId::from_number(number) {
        Some(server) => Ok((Leader::new(Some(server)), next)),
        None => Err(Refusal::Frame(at)),
    }
}

/// The number of a leader, from 1 to 5; 0 where none is known.
fn leader_number(leader: Leader) -> u8
    ensures { result ≡ leader_number leader }
{
    match leader.get() {
        None => 0,
        Some(server) => server.number(),
    }
}

/// The reason of a number, of which number 2 tells this leader; none for 0 and past 21.
fn told_of(number: u8, leader: Leader) -> Option<Reason>
    ensures { result ≡ told_of (number, leader) }
{
    match number {
        1 => Some(Reason::NoMemory),
        2 => Some(Reason::NotLeader(leader)),
        3 => Some(Reason::NotOpen),
        4 => Some(Reason::NotOutstanding),
        5 => Some(Reason::TokenDiffers),
        6 => Some(Reason::SnapshotTooOld),
        7 => Some(Reason::JobChanged),
        8 => Some(Reason::UnknownJob),
        9 => Some(Reason::UnknownNode),
        10 => Some(Reason::NodeDiffers),
        11 => Some(Reason::BadName),
        12 => Some(Reason::OutOfRange),
        13 => Some(Reason::TableFull),
        14 => Some(Reason::Exhausted),
        15 => Some(Reason::Frame),
        16 => Some(Reason::Down),
        17 => Some(Reason::QueueFull),
        18 => Some(Reason::JobStopped),
        19 => Some(Reason::StaleExpiry),
        20 => Some(Reason::NotDraining),
        21 => Some(Reason::UnknownAlloc),
        _ => None,
    }
}

/// A number from `least` to 21, of which 0 is no refusal, and the leader.
fn read_told(bytes: &[u8], at: usize, least: u8) -> Result<(Option<Reason>, usize), Refusal>
    ensures { GivesExactly result ((told_from least).read bytes.now at) }
{
    let (number, leader_at) = read_u8(bytes, at)?;
    if number < least || number > 21 {
        return Err(Refusal::Frame(at));
    }
    let (leader, end) = read_leader(bytes, leader_at, number)?;
    Ok((told_of(number, leader), end))
}

/// That a request is taken, or why it is refused: the refusal's number in one byte, 0 where it is
/// taken, and the number of the leader that refusal 2 tells, 0 for any other. `Frame` names the
/// byte that is cut or out of its range.
pub fn read_told_reason(bytes: &[u8], at: usize) -> Result<(Option<Reason>, usize), Refusal>
    ensures { GivesExactly result (told_reason.read bytes.now at) }
{
    read_told(bytes, at, 0)
}

/// The number of a refusal, and of the leader that it tells.
fn told_parts(told: &Option<Reason>) -> (u8, Leader)
    ensures { result ≡ told_parts told.now }
{
    match told {
        None => (0, Leader::new(None)),
        Some(Reason::NotLeader(leader)) => (2, *leader),
        Some(reason) => (reason.number(), Leader::new(None)),
    }
}

/// Puts to the end that a request is taken, or why it is refused. Without memory a part may stand
/// there.
fn append_told_reason(told: &Option<Reason>, out: &mut Vec<u8>) -> Result<(), NoMemory>
    ensures { Puts told_reason told.now result out.old.items out.new.items }
{
    let (number, leader) = told_parts(told);
    write_u8(&number, out)?;
    write_u8(&leader_number(leader), out)
}

/// Puts to the end that a request is taken, or why it is refused. Without memory the buffer stays
/// as it was.
pub fn write_told_reason(told: &Option<Reason>, out: &mut Vec<u8>) -> Result<(), NoMemory>
    ensures { Writes told_reason told.now result out.old.items out.new.items }
{
    let start = out.len();
    let done = append_told_reason(told, out);
    take_back(done, start, out)
}

/// A refusal's number in one byte, from 1 to 21, and the number of the leader that refusal 2 tells,
/// 0 for any other.
impl Field for Reason {
    ghost format = { λ _. reason };

    ghost lawful = { λ _. reason_lawful };

    fn read_at(
        _version: Version,
        _alloc: Global,
        bytes: &[u8],
        at: usize,
    ) -> Result<(Reason, usize), Refusal>
        ensures { GivesExactly result (reason.read bytes.now at) }
    {
        let (told, end) = read_told(bytes, at, 1)?;
        match told {
            Some(reason) => Ok((reason, end)),
            None => Err(Refusal::Frame(at)),
        }
    }

    fn append(&self, out: &mut Vec<u8>) -> Result<(), NoMemory> {
        append_told_reason(&Some(*self), out)
    }
}

/// The byte 0: no evaluation and no token.
fn read_no_pair(bytes: &[u8], at: usize) -> Result<((), usize), Refusal>
    ensures { GivesExactly result (no_pair.read bytes.now at) }
{
    match read_u8(bytes, at)? {
        (0, next) => Ok(((), next)),
        _ => Err(Refusal::Frame(at)),
    }
}

/// The byte 1, the evaluation and the token.
fn read_pair(
    version: Version,
    alloc: Global,
    bytes: &[u8],
    at: usize,
) -> Result<((EvalId, Token), usize), Refusal>
    ensures { GivesExactly result (a_pair.read bytes.now at) }
{
    match read_u8(bytes, at)? {
        (1, at) => {
            let (eval, at) = EvalId::read_at(version, alloc, bytes, at)?;
            let (token, at) = Token::read_at(version, alloc, bytes, at)?;
            Ok(((eval, token), at))
        }
        _ => Err(Refusal::Frame(at)),
    }
}

/// Puts the byte 1, the evaluation and the token to the end.
fn append_pair(eval: &EvalId, token: &Token, out: &mut Vec<u8>) -> Result<(), NoMemory>
    ensures { Puts a_pair (eval.now, token.now) result out.old.items out.new.items }
{
    write_u8(&1, out)?;
    eval.append(out)?;
    token.append(out)
}

/// One byte, 7 take, 9 submit, 11 finish or 12 nack, and an option of the evaluation and the token,
/// which is none exactly for 7.
impl Field for AskedRequest {
    ghost format = { λ _. asked_request };

    ghost lawful = { λ _. asked_request_lawful };

    fn read_at(
        version: Version,
        alloc: Global,
        bytes: &[u8],
        at: usize,
    ) -> Result<(AskedRequest, usize), Refusal>
        ensures { GivesExactly result (asked_request.read bytes.now at) }
    {
        match read_u8(bytes, at)? {
            (7, at) => {
                let (_, end) = read_no_pair(bytes, at)?;
                Ok((AskedRequest::Take, end))
            }
            (9, at) => {
                let ((eval, token), end) = read_pair(version, alloc, bytes, at)?;
                Ok((AskedRequest::Submit(eval, token), end))
            }
            (11, at) => {
                let ((eval, token), end) = read_pair(version, alloc, bytes, at)?;
                Ok((AskedRequest::Finish(eval, token), end))
            }
            (12, at) => {
                let ((eval, token), end) = read_pair(version, alloc, bytes, at)?;
                Ok((AskedRequest::Nack(eval, token), end))
            }
            _ => Err(Refusal::Frame(at)),
        }
    }

    fn append(&self, out: &mut Vec<u8>) -> Result<(), NoMemory> {
        match self {
            AskedRequest::Take => {
                write_u8(&7, out)?;
                write_u8(&0, out)
            }
            AskedRequest::Submit(eval, token) => {
                write_u8(&9, out)?;
                append_pair(eval, token, out)
            }
            AskedRequest::Finish(eval, token) => {
                write_u8(&11, out)?;
                append_pair(eval, token, out)
            }
            AskedRequest::Nack(eval, token) => {
                write_u8(&12, out)?;
                append_pair(eval, token, out)
            }
        }
    }
}

/// One byte: 14 register, 15 heartbeat, 18 report.
impl Field for ClientRequestKind {
    ghost format = { λ _. client_request_kind };

    ghost lawful = { λ _. client_request_kind_lawful };

    fn read_at(
        _version: Version,
        _alloc: Global,
        bytes: &[u8],
        at: usize,
    ) -> Result<(ClientRequestKind, usize), Refusal>
        ensures { GivesExactly result (client_request_kind.read bytes.now at) }
    {
        match read_u8(bytes, at)? {
            (14, next) => Ok((ClientRequestKind::Register, next)),
            (15, next) => Ok((ClientRequestKind::Heartbeat, next)),
            (18, next) => Ok((ClientRequestKind::Report, next)),
            _ => Err(Refusal::Frame(at)),
        }
    }

    fn append(&self, out: &mut Vec<u8>) -> Result<(), NoMemory> {
        let number = match self {
            ClientRequestKind::Register => 14,
            ClientRequestKind::Heartbeat => 15,
            ClientRequestKind::Report => 18,
        };
        write_u8(&number, out)
    }
}

/// One byte: 0 pending, 1 running, 2 unknown.
impl Field for LiveState {
    ghost format = { λ _. live_state };

    ghost lawful = { λ _. live_state_lawful };

    fn read_at(
        _version: Version,
        _alloc: Global,
        bytes: &[u8],
        at: usize,
    ) -> Result<(LiveState, usize), Refusal>
        ensures { GivesExactly result (live_state.read bytes.now at) }
    {
        match read_u8(bytes, at)? {
            (0, next) => Ok((LiveState::Pending, next)),
            (1, next) => Ok((LiveState::Running, next)),
            (2, next) => Ok((LiveState::Unknown, next)),
            _ => Err(Refusal::Frame(at)),
        }
    }

    fn append(&self, out: &mut Vec<u8>) -> Result<(), NoMemory> {
        let code = match self {
            LiveState::Pending => 0,
            LiveState::Running => 1,
            LiveState::Unknown => 2,
        };
        write_u8(&code, out)
    }
}

/// A live allocation: its id, its size, and what is known of it. It stands in frames alone, and so
/// its size is of the newest version.
impl Field for ListedAllocation {
    ghost format = { λ _. listed_allocation };

    ghost lawful = { λ _. listed_allocation_lawful };

    fn read_at(
        version: Version,
        alloc: Global,
        bytes: &[u8],
        at: usize,
    ) -> Result<(ListedAllocation, usize), Refusal>
        ensures { GivesExactly result (listed_allocation.read bytes.now at) }
    {
        let (id, at) = AllocId::read_at(version, alloc, bytes, at)?;
        let (size, at) = Size::read_at(Version::newest(), alloc, bytes, at)?;
        let (state, at) = LiveState::read_at(version, alloc, bytes, at)?;
        Ok((ListedAllocation { id, size, state }, at))
    }

    fn append(&self, out: &mut Vec<u8>) -> Result<(), NoMemory> {
        self.id.append(out)?;
        self.size.append(out)?;
        self.state.append(out)
    }
}

/// Whether the id is above that of the last row, if there is one.
fn is_listed_above(front: &[ListedAllocation], id: &AllocId) -> bool
    ensures { result ≡ is_behind alloc_cmp listed_id front.now id.now }
{
    match front.last() {
        None => true,
        Some(last) => last.id < *id,
    }
}

/// In a list ids rise strictly: one that does not is a fault at the row's first byte.
impl RuledField for ListedAllocation {
    ghost rule = { listed_rises };

    ghost behind = { λ _. listed_allocation_behind };

    ghost ruled = { λ _. listed_allocation_is_ruled };

    fn read_behind(
        version: Version,
        alloc: Global,
        bytes: &[u8],
        at: usize,
        front: &[ListedAllocation],
    ) -> Result<(ListedAllocation, usize), Refusal>
        ensures { GivesExactly result ((listed_allocation_behind front.now).read bytes.now at) }
    {
        let (id, next) = AllocId::read_at(version, alloc, bytes, at)?;
        if !is_listed_above(front, &id) {
            return Err(Refusal::Frame(at));
        }
        let (size, next) = Size::read_at(Version::newest(), alloc, bytes, next)?;
        let (state, next) = LiveState::read_at(version, alloc, bytes, next)?;
        Ok((ListedAllocation { id, size, state }, next))
    }
}

/// A count of four bytes, at most 65,536, and that many allocations whose ids rise strictly.
impl Field for Listing {
    ghost format = { λ _. listing };

    ghost lawful = { λ _. listing_lawful };

    fn read_at(
        version: Version,
        alloc: Global,
        bytes: &[u8],
        at: usize,
    ) -> Result<(Listing, usize), Refusal> {
        let (rows, next) = read_long_ruled_list(version, alloc, bytes, at, 65_536)?;
        match Listing::check(rows) {
            Ok(listing) => Ok((listing, next)),
            Err(_) => unreachable!(),
        }
    }

    fn append(&self, out: &mut Vec<u8>) -> Result<(), NoMemory> {
        self.ranges();
        append_long_counted(self.as_slice(), 65_536, out)
    }
}
