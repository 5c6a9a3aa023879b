//! A bank that is replicated: a machine of a page, and what its user knows of it through every run.
#![tactic(auto)]

mod account;
mod bank;
mod command;
mod history;
mod law;
mod money;
mod replicated;

pub use account::AccountId;
pub use bank::Bank;
pub use command::BankCommand;
pub use history::{bank_of, one_book};
pub use law::books_balance;
pub use money::Money;
