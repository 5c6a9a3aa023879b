ghost use Rattle.std.specs.Prelude.{◌≡◌, ◌<◌, ◌^◌};
ghost use Rattle.fields_model.specs.Format.{GivesExactly};
ghost use Rattle.fields_model.specs.Fields.{u16};
ghost use Rattle.fields_model.proofs.FieldLaws.{u16_lawful};

use fields::{Field, read_u16, write_u16};
use rows::{NoMemory, Refusal, Version};
use std::alloc::Global;
use std::marker::Model;

/// The number of an account. Accounts are numbered from 0, in the order in which they are opened;
/// there may be none of the number. Contracts see the number.
#[derive(Clone, Copy, Debug, PartialEq, Eq)]
pub struct AccountId(u16);

impl Model for AccountId {
    ghost use Rattle.std.specs.Prelude.{ℕ, ◌<◌, ◌^◌};

    ghost Value = { ℕ };

    ghost view = { λ a. a.0 };

    ghost invariant = { λ a. a.0 < 2 ^ 16 };

    ghost inverse = { λ n. record { 0 = n } };
}

impl AccountId {
    /// The account of this number.
    pub fn new(number: u16) -> AccountId
        ensures { result ≡ number }
    {
        AccountId(number)
    }

    /// Its number.
    pub fn get(self) -> u16
        ensures value { result ≡ self }
        ensures below { result < 2 ^ 16 }
    {
        self.0
    }
}

/// Two bytes.
impl Field for AccountId {
    ghost format = { λ _. u16 };

    ghost lawful = { λ _. u16_lawful };

    fn read_at(
        _version: Version,
        _alloc: Global,
        bytes: &[u8],
        at: usize,
    ) -> Result<(AccountId, usize), Refusal>
        ensures { GivesExactly result (u16.read bytes.now at) }
    {
        let (number, next) = read_u16(bytes, at)?;
        Ok((AccountId::new(number), next))
    }

    fn append(&self, out: &mut Vec<u8>) -> Result<(), NoMemory> {
        write_u16(&self.get(), out)
    }
}
