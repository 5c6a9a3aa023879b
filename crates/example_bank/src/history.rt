//! What is known of the banks of a group, whatever happened to it.
ghost use Rattle.std.specs.Prelude.{◌≡◌, List, IfSome};
ghost use Rattle.std.specs.Option.{option_copied};
ghost use Rattle.raft_model.specs.Worlds.{World};
ghost use Rattle.world.specs.WorldView.{RunsTo};
ghost use Rattle.world.specs.Claims.{machine_of};
ghost use Rattle.example_bank.specs.Bank.{bank_spec};
ghost use Rattle.example_bank.specs.Histories.{IsBankOf, OneBook};
ghost use Rattle.example_bank.specs.declared.command.BankCommand.{BankCommand};

use crate::bank::Bank;
use raft_safety::states_are_safe;
use rows::ServerId;
use world::RaftWorld;

/// There is one list of commands, as long as `chain()`, of which every bank is a first part.
/// Through each list of deliveries, losses, repeats, elections, proposals, crashes and restarts, at
/// every moment, the bank of each server that is up is the empty one after the first commands of
/// that list; all its balances come to what those deposited less what they withdrew; and no account
/// holds more than `Money::MOST`.
pub fn one_book(world: &RaftWorld<Bank>)
    ensures { OneBook world.now }
{
    world.one_list();
    states_are_safe::<Bank>();
}

/// The bank of a server, which is one of the list that `one_book` speaks of; none where the group
/// has no such server, or it is down.
pub fn bank_of(world: &RaftWorld<Bank>, server: ServerId) -> Option<&Bank>
    ensures value { (past : List (World BankCommand)) (w : World BankCommand) →
        RunsTo bank_spec world.now past w →
        option_copied result ≡ machine_of bank_spec w server }
    ensures history { IfSome result (λ bank. (list : List BankCommand) × IsBankOf list bank.now) }
    // That list is the world's: two banks of one world are of one list.
    ensures book { IfSome result (λ bank. (book : OneBook world.now) → IsBankOf book.list bank.now) }
{
    one_book(world);
    world.machine(server)
}
