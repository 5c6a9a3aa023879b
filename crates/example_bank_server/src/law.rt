//! What is known of all processes of such servers.
ghost use Rattle.std.specs.Prelude.{◌≡◌, ◌++◌, ℕ, List, Some};
ghost use Rattle.journal.specs.Events.{IoEvent};
ghost use Rattle.raft_core.specs.RaftView.{RaftView};
ghost use Rattle.example_bank.specs.Bank.{bank_spec};
ghost use Rattle.example_bank.specs.BankState.{BankState};
ghost use Rattle.example_bank.specs.declared.command.BankCommand.{BankCommand};
ghost use Rattle.process_lives.specs.Lives.{IsUnderWay, Lived, Past, Process, Serves};
ghost use Rattle.example_bank_server.specs.Books.{OneBookOfLives};
ghost use Rattle.example_bank_server.specs.Laws.Lives.{runs_servers};
ghost use Rattle.example_bank_server.specs.Lines.{bank_reason, bank_words};
ghost use Rattle.example_bank_server.specs.Lives.{BeginsWith, IsFrameItem, header_text, node_code};
ghost use Rattle.raft_records.specs.Records.{raft_replay};
ghost use Rattle.example_bank_server.specs.Turns.{Turn};

use crate::lines::Words;
use crate::node::Node;
use example_bank::Bank;
use journal::{Outside, Stop, serve};
use process_lives::{ServerProcess, lives_keep_one_list};
use std::alloc::Global;

impl<M: Words> ServerProcess<M> for Node<M> {
    ghost replay = { raft_replay M.spec };

    ghost turn = { Turn M.spec M.words M.reason };

    ghost begins_with = { BeginsWith M.spec };

    ghost header = { header_text };

    ghost is_frame = { IsFrameItem M.spec };

    ghost runs = { runs_servers M.spec M.lawful M.words M.reason };
}

/// Whatever processes do that are such servers of a group, each begun again and again from its own
/// journal, in any order, with a kill at any moment, over a transport that alters no frame: there is
/// one list of commands such that each bank of which one of them ever told is that after its first
/// commands, and balances.
///
/// `Lived` says what they do: each is a beginning of what the contract of `serve` says, from what
/// `begin` answers; and of the world outside that each whole item that comes to one and is a frame
/// had left one, and that after a kill a journal has what `CrashLeaves` says.
pub fn processes_keep_one_book()
    ensures { (size : ℕ) (past : Past ℕ) (now : ℕ → Process (RaftView BankState BankCommand)) →
        Lived (node_code bank_spec bank_words bank_reason size) past now → OneBookOfLives past }
{
    lives_keep_one_list::<Bank, Node<Bank>>();
}

/// Lets a server serve as a process. Whatever happened meanwhile is what `Lived` asks of the
/// process that began with it: the first of all that it does if it is let alone. And whatever such
/// processes do, `processes_keep_one_book` says what their banks are.
pub fn live<O: Outside>(alloc: Global, node: &mut Node<Bank>, outside: &mut O) -> Result<(), Stop>
    ensures { (size me : ℕ) (did done : List IoEvent) → O.happened outside.old ≡ Some did →
        O.happened outside.new ≡ Some (did ++ done) →
        IsUnderWay (node_code bank_spec bank_words bank_reason size) me (Serves node.old done) }
{
    processes_keep_one_book();
    serve(alloc, node, outside)
}
