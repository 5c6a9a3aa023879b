//! What holds of all that such processes did.
ghost use Rattle.std.specs.Prelude.{ℕ, List, Option};
ghost use Rattle.rows.specs.declared.allocation.AllocId.{AllocId};
ghost use Rattle.rows.specs.declared.command.Command.{Command};
ghost use Rattle.rows.specs.declared.node.NodeSpec.{NodeSpec};
ghost use Rattle.fsm_model.specs.Words.{State};
ghost use Rattle.group_model.specs.Agents.{Agent};
ghost use Rattle.group_model.specs.Servers.{Server};
ghost use Rattle.journal.specs.Events.{IoEvent};
ghost use Rattle.journal.specs.Replays.{Replay};
ghost use Rattle.raft_core.specs.RaftView.{RaftView};
ghost use Rattle.raft_snapshot.specs.Stored.{Stored};
ghost use Rattle.processes.specs.Groups.{Who};
ghost use Rattle.process_lives.specs.Lives.{Past, Process, Lived};
ghost use Rattle.process_lives.specs.Groups.{RunsGroupServers, group_server_code};
ghost use Rattle.process_lives.specs.Groups.{RunsGroupClients, group_client_code};
ghost use Rattle.process_lives.specs.Groups.{ByKind, HeadlineOfLives, group_code};
ghost use Rattle.process_lives.specs.Servers.{RunsServers, OneListOfLives, server_code};

use machine_model::Machine;

/// Code that is run as the process of a server of the log over a machine.
pub trait ServerProcess<M: Machine> {
    // how what a server stores is kept as payloads
    ghost replay: { Replay (Stored M M.Command) };

    // what it makes of an item, with what it sends and reports
    ghost turn: { List ℕ → RaftView M M.Command → RaftView M M.Command → List IoEvent → Type 0 };

    // in a group of so many, the server of this number begins with this value, where its journal
    // has these bytes or is not there
    ghost begins_with: { ℕ → ℕ → Option (List ℕ) → RaftView M M.Command → Type 0 };

    // the first line of that journal
    ghost header: { ℕ → ℕ → List ℕ };

    // the items that are frames
    ghost is_frame: { List ℕ → Type 0 };

    // it runs servers of the log
    ghost runs: { (n : ℕ) → RunsServers M.spec n
        (server_code replay turn (begins_with n) (header n) is_frame) };
}

/// Whatever processes of such code did, in any order, killed at any moment, over a transport that
/// alters no frame: each line that one reported is of a turn of a server that had committed a first
/// part of one list. (Raft, extended version 2014, figure 3.)
pub fn lives_keep_one_list<M: Machine, P: ServerProcess<M>>()
    ensures { (n : ℕ) (past : Past ℕ) (now : ℕ → Process (RaftView M M.Command)) →
        Lived (server_code P.replay P.turn (P.begins_with n) (P.header n) P.is_frame) past now →
        OneListOfLives M.spec P.turn past }
{}

/// Code that is run as the process of a server of the group.
pub trait GroupServerProcess {
    // how what a server stores of its log is kept as payloads
    ghost replay: { Replay (Stored State Command) };

    // its part of the log, and the servers of the definitions that a value may be
    ghost raft: { Self → RaftView State Command };

    ghost shows: { Self → Server → Type 0 };

    // what it makes of an item, with what it sends and reports
    ghost turn: { List ℕ → Self → Self → List IoEvent → Type 0 };

    // in a group of so many, the server of this number begins with this value, where its journal
    // has these bytes or is not there
    ghost begins_with: { ℕ → ℕ → Option (List ℕ) → Self → Type 0 };

    // the first line of that journal
    ghost header: { ℕ → ℕ → List ℕ };

    // it runs servers of the group
    ghost runs: { (n : ℕ) → RunsGroupServers raft shows n
        (group_server_code raft shows replay turn (begins_with n) (header n)) };
}

/// Code that is run as the process of a client of the group: the agent of one node.
pub trait GroupClientProcess {
    // how the ids that a client ever started are kept as payloads
    ghost replay: { Replay (List AllocId) };

    // how many servers its group has, and the client that it is
    ghost size: { Self → ℕ };

    ghost agent: { Self → Agent };

    // what it makes of an item, with what it sends and reports
    ghost turn: { List ℕ → Self → Self → List IoEvent → Type 0 };

    // in a group of so many servers and of these nodes, the client of this number begins with this
    // value, where its journal has these bytes or is not there
    ghost begins_with: { ℕ → List NodeSpec → ℕ → Option (List ℕ) → Self → Type 0 };

    // the first line of that journal
    ghost header: { ℕ → List NodeSpec → ℕ → List ℕ };

    // it runs clients of the group
    ghost runs: { (n : ℕ) (nodes : List NodeSpec) → RunsGroupClients size agent n nodes
        (group_client_code size agent replay turn (begins_with n nodes) (header n nodes)) };
}

/// Whatever processes of such servers and clients of one group did, in any order, killed at any
/// moment, over a transport that alters no frame: all that one sent or reported is of a turn of an
/// actor of an execution that keeps what is promised of the group. (Raft, extended version 2014,
/// figure 3.)
pub fn group_lives_keep_the_headline<S: GroupServerProcess, C: GroupClientProcess>()
    ensures { (n : ℕ) (nodes : List NodeSpec) (past : Past Who) (now : Who → Process (ByKind S C)) →
        Lived (group_code
        (group_server_code S.raft S.shows S.replay S.turn (S.begins_with n) (S.header n))
        (group_client_code C.size C.agent C.replay C.turn
        (C.begins_with n nodes) (C.header n nodes))) past now →
        HeadlineOfLives n nodes S.shows C.agent (group_code
        (group_server_code S.raft S.shows S.replay S.turn (S.begins_with n) (S.header n))
        (group_client_code C.size C.agent C.replay C.turn
        (C.begins_with n nodes) (C.header n nodes))) past }
{}
