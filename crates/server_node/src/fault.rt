//! Why a run ends before the end of its input.
ghost use Rattle.std.specs.Prelude.{◌≡◌, ◌≢◌, ◌≤◌, ◌↔◌};
ghost use Rattle.std.specs.IoError.{error_kind};
ghost use Rattle.std.specs.declared.io.ErrorKind.TheVariants.{OutOfMemory};
ghost use Rattle.server_node.specs.Statuses.{fault_of, open_fault, status_of};
ghost use Rattle.server_node.specs.declared.fault.Fault.TheVariants as faults;

use journal::{OpenError, Stop};
use rows::NoMemory;
use std::alloc::AllocError;
use std::io;
use thiserror::Error;

/// A fault of the program. Its text is what the standard error is told, with its line's end.
#[derive(Clone, Copy, Debug, Drop, Error)]
pub enum Fault {
    /// An item of the input says that it has so many bytes, which is more than `MOST_BYTES`.
    #[error("server_node: an item of {0} bytes, and the most are 16777216\n")]
    TooLong(u32),
    /// The input ends within an item.
    #[error("server_node: the input ends within an item\n")]
    Cut,
    /// The words of the command line name no server of a group.
    #[error("usage: server_node ME OF STORE SEED [NAME=MILLISECONDS..] (server ME, from 1 to OF, of OF servers, 3 or 5)\n")]
    Usage,
    /// The store is there, and cannot be read.
    #[error("server_node: the store cannot be read\n")]
    Unread,
    /// What has the store's name is no regular file.
    #[error("server_node: the store is no regular file\n")]
    NotAFile,
    /// Another process has the store open.
    #[error("server_node: the store is in use by another process\n")]
    InUse,
    /// The store is the journal of another server, or of a group of another size.
    #[error("server_node: the store is another's journal: its first line says whose\n")]
    Another,
    /// What the store has is no stored part: with the offset of its first fault, or of the record
    /// that is damaged, from 0.
    #[error("server_node: the store is at fault at byte {0}\n")]
    BadStore(usize),
    /// The store cannot be written.
    #[error("server_node: the store cannot be written\n")]
    Unstored,
    /// The input cannot be read.
    #[error("server_node: the input cannot be read\n")]
    Input,
    /// The output, or the standard error, cannot be written.
    #[error("server_node: the output cannot be written\n")]
    Output,
    /// There was no memory.
    #[error("server_node: no memory\n")]
    NoMemory,
}

impl Fault {
    /// The exit status of a run that ends by this fault: 1 where the input is at fault, 3 where
    /// there was no memory, else 2.
    pub fn status(self) -> u8
        ensures { result ≡ status_of self }
    {
        match self {
            Fault::TooLong(_) | Fault::Cut => 1,
            Fault::NoMemory => 3,
            _ => 2,
        }
    }

    /// This fault, unless the error is want of memory.
    pub fn unless_memory(self, error: &io::Error) -> Fault
        ensures memory { error_kind error.now ≡ OutOfMemory → result ≡ faults.NoMemory }
        ensures other { error_kind error.now ≢ OutOfMemory → result ≡ self }
    {
        if error.kind() == io::ErrorKind::OutOfMemory {
            Fault::NoMemory
        } else {
            self
        }
    }
}

impl From<Stop> for Fault {
    ghost from_gives = { λ stop fault. fault ≡ fault_of stop };

    fn from(stop: Stop) -> Fault {
        match stop {
            Stop::TooLong(size) => Fault::TooLong(size),
            Stop::Cut => Fault::Cut,
            Stop::Input => Fault::Input,
            Stop::Unstored => Fault::Unstored,
            Stop::Output => Fault::Output,
            Stop::NoMemory => Fault::NoMemory,
        }
    }
}

impl From<OpenError> for Fault {
    ghost from_gives = { λ error fault. fault ≡ open_fault error };

    fn from(error: OpenError) -> Fault {
        match error {
            OpenError::NoMemory => Fault::NoMemory,
            OpenError::NotAFile => Fault::NotAFile,
            OpenError::InUse => Fault::InUse,
            OpenError::Unread => Fault::Unread,
        }
    }
}

impl From<NoMemory> for Fault {
    ghost from_gives = { λ _ fault. fault ≡ faults.NoMemory };

    fn from(_error: NoMemory) -> Fault {
        Fault::NoMemory
    }
}

impl From<AllocError> for Fault {
    ghost from_gives = { λ _ fault. fault ≡ faults.NoMemory };

    fn from(_error: AllocError) -> Fault {
        Fault::NoMemory
    }
}
