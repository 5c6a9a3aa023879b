//! What the bank's meaning says, in its user's words. The function has an empty body: what it says
//! is its contract.
ghost use Rattle.std.specs.Prelude.{◌≡◌, ◌≢◌, ◌<◌, ℕ, List, Some, None, slice_get, sum};
ghost use Rattle.rows.specs.declared.refusal.Refusal.TheVariants.{OutOfRange};
ghost use Rattle.machine_model.specs.After.{after, Admitted};
ghost use Rattle.example_bank.specs.BankState.{BankState};
ghost use Rattle.example_bank.specs.Bank.{bank_spec};
ghost use Rattle.example_bank.specs.Books.{Balanced};
ghost use Rattle.example_bank.specs.declared.command.BankCommand.{BankCommand};
ghost use Rattle.example_bank.specs.declared.command.BankCommand.TheVariants.{Withdraw, Transfer};

/// The law of the bank.
/// - `balanced`: after each list of commands that were admitted one after the other, all balances
///   come to what was deposited less what was withdrawn.
/// - `transfer`: a transfer moves both or none: the total stays, whether or not it is refused.
/// - `overdrawn`: a withdrawal of more than the account holds is refused.
/// - `refused`: a refused command leaves every balance, also where it is applied all the same.
pub fn books_balance()
    ensures balanced { (cs : List BankCommand) → Admitted bank_spec cs
        → Balanced (after bank_spec cs) cs }
    ensures transfer { (s : BankState) (from to amount : ℕ)
        → sum (bank_spec.applied s (Transfer from to amount)).balances ≡ sum s.balances }
    ensures overdrawn { (s : BankState) (account amount balance : ℕ)
        → slice_get s.balances account ≡ Some balance → balance < amount
        → bank_spec.admission s (Withdraw account amount) ≡ Some OutOfRange }
    ensures refused { (s : BankState) (c : BankCommand) → bank_spec.admission s c ≢ None
        → (bank_spec.applied s c).balances ≡ s.balances }
{}
