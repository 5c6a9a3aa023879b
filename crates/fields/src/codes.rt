//! What stands in rows as one byte by a code.
ghost use Rattle.fields_model.specs.Format.{GivesExactly};
ghost use Rattle.fields_model.specs.Rows.{node_status, drain_mode, eval_status, desired, client_state};
ghost use Rattle.fields_model.proofs.RowLaws.{node_status_lawful, drain_mode_lawful, eval_status_lawful, desired_lawful, client_state_lawful};

use crate::field::Field;
use crate::reading::read_u8;
use crate::writing::write_u8;
use rows::{ClientState, Desired, DrainMode, EvalStatus, NoMemory, NodeStatus, Refusal, Version};
use std::alloc::Global;

/// One byte: 0 ready, 1 down, and from version 3 on 2 disconnected.
impl Field for NodeStatus {
    ghost format = { node_status };

    ghost lawful = { node_status_lawful };

    fn read_at(
        version: Version,
        _alloc: Global,
        bytes: &[u8],
        at: usize,
    ) -> Result<(NodeStatus, usize), Refusal>
        ensures { GivesExactly result ((node_status version).read bytes.now at) }
    {
        let number = version.number();
        match read_u8(bytes, at)? {
            (0, next) => Ok((NodeStatus::Ready, next)),
            (1, next) => Ok((NodeStatus::Down, next)),
            (2, next) if number >= 3 => Ok((NodeStatus::Disconnected, next)),
            _ => Err(Refusal::Frame(at)),
        }
    }

    fn append(&self, out: &mut Vec<u8>) -> Result<(), NoMemory> {
        let code = match self {
            NodeStatus::Ready => 0,
            NodeStatus::Down => 1,
            NodeStatus::Disconnected => 2,
        };
        write_u8(&code, out)
    }
}

/// One byte: 0 none, 1 slow, 2 force.
impl Field for DrainMode {
    ghost format = { λ _. drain_mode };

    ghost lawful = { λ _. drain_mode_lawful };

    fn read_at(
        _version: Version,
        _alloc: Global,
        bytes: &[u8],
        at: usize,
    ) -> Result<(DrainMode, usize), Refusal>
        ensures { GivesExactly result (drain_mode.read bytes.now at) }
    {
        match read_u8(bytes, at)? {
            (0, next) => Ok((DrainMode::Off, next)),
            (1, next) => Ok((DrainMode::Slow, next)),
            (2, next) => Ok((DrainMode::Force, next)),
            _ => Err(Refusal::Frame(at)),
        }
    }

    fn append(&self, out: &mut Vec<u8>) -> Result<(), NoMemory> {
        let code = match self {
            DrainMode::Off => 0,
            DrainMode::Slow => 1,
            DrainMode::Force => 2,
        };
        write_u8(&code, out)
    }
}

/// One byte: 0 pending, 1 blocked, 2 complete, 3 failed.
impl Field for EvalStatus {
    ghost format = { λ _. eval_status };

    ghost lawful = { λ _. eval_status_lawful };

    fn read_at(
        _version: Version,
        _alloc: Global,
        bytes: &[u8],
        at: usize,
    ) -> Result<(EvalStatus, usize), Refusal>
        ensures { GivesExactly result (eval_status.read bytes.now at) }
    {
        match read_u8(bytes, at)? {
            (0, next) => Ok((EvalStatus::Pending, next)),
            (1, next) => Ok((EvalStatus::Blocked, next)),
            (2, next) => Ok((EvalStatus::Complete, next)),
            (3, next) => Ok((EvalStatus::Failed, next)),
            _ => Err(Refusal::Frame(at)),
        }
    }

    fn append(&self, out: &mut Vec<u8>) -> Result<(), NoMemory> {
        let code = match self {
            EvalStatus::Pending => 0,
            EvalStatus::Blocked => 1,
            EvalStatus::Complete => 2,
            EvalStatus::Failed => 3,
        };
        write_u8(&code, out)
    }
}

/// One byte: 0 run, 1 stop.
impl Field for Desired {
    ghost format = { λ _. desired };

    ghost lawful = { λ _. desired_lawful };

    fn read_at(
        _version: Version,
        _alloc: Global,
        bytes: &[u8],
        at: usize,
    ) -> Result<(Desired, usize), Refusal>
        ensures { GivesExactly result (desired.read bytes.now at) }
    {
        match read_u8(bytes, at)? {
            (0, next) => Ok((Desired::Run, next)),
            (1, next) => Ok((Desired::Stop, next)),
            _ => Err(Refusal::Frame(at)),
        }
    }

    fn append(&self, out: &mut Vec<u8>) -> Result<(), NoMemory> {
        let code = match self {
            Desired::Run => 0,
            Desired::Stop => 1,
        };
        write_u8(&code, out)
    }
}

/// One byte: 0 pending, 1 running, 2 complete, 3 failed, 4 lost, and from version 3 on 5 unknown.
impl Field for ClientState {
    ghost format = { client_state };

    ghost lawful = { client_state_lawful };

    fn read_at(
        version: Version,
        _alloc: Global,
        bytes: &[u8],
        at: usize,
    ) -> Result<(ClientState, usize), Refusal>
        ensures { GivesExactly result ((client_state version).read bytes.now at) }
    {
        let number = version.number();
        match read_u8(bytes, at)? {
            (0, next) => Ok((ClientState::Pending, next)),
            (1, next) => Ok((ClientState::Running, next)),
            (2, next) => Ok((ClientState::Complete, next)),
            (3, next) => Ok((ClientState::Failed, next)),
            (4, next) => Ok((ClientState::Lost, next)),
            (5, next) if number >= 3 => Ok((ClientState::Unknown, next)),
            _ => Err(Refusal::Frame(at)),
        }
    }

    fn append(&self, out: &mut Vec<u8>) -> Result<(), NoMemory> {
        let code = match self {
            ClientState::Pending => 0,
            ClientState::Running => 1,
            ClientState::Complete => 2,
            ClientState::Failed => 3,
            ClientState::Lost => 4,
            ClientState::Unknown => 5,
        };
        write_u8(&code, out)
    }
}
