//! The real file and streams.
use crate::outside::Outside;
use crate::records::write_record;
use rows::NoMemory;
use std::fs::{File, OpenOptions};
use std::io::{ErrorKind, Read, Write};
use std::path::Path;
use std::rt::Files;
use std::{fs, io};

/// The first bytes of every journal's header.
pub const MAGIC: &[u8] = b"minutebarn journal ";

/// A journal of fewer bytes is not replaced by the whole to shorten it: 4 MiB.
const LEAST_LONG: u64 = 4_194_304;

/// Why a journal was not opened.
#[derive(Clone, Copy, Debug, Drop)]
pub enum OpenError {
    /// There was no memory.
    NoMemory,
    /// What has its name is no regular file.
    NotAFile,
    /// Another process has it open.
    InUse,
    /// It is there, and can't be read, or can't be locked.
    Unread,
}

/// The journal of a process, and the standard streams. While it is open no other process opens that
/// journal.
#[derive(Drop)]
pub struct Host<'a> {
    rt: &'a HostRuntime,
    /// The name of the journal.
    name: &'a str,
    /// The name of the file that takes its place.
    next: String,
    /// The line that says whose journal it is.
    header: Vec<u8>,
    /// The file that is locked.
    lock: File,
    /// The journal, once it was replaced.
    journal: Option<File>,
    /// How many bytes it has, and how many it had when it was replaced.
    size: u64,
    whole: u64,
}

/// The error, unless it is want of memory.
fn unless_memory(error: &io::Error, other: OpenError) -> OpenError {
    if error.kind() == ErrorKind::OutOfMemory {
        OpenError::NoMemory
    } else {
        other
    }
}

/// A file of this name that is locked for this process alone.
fn locked(rt: &HostRuntime, name: &str) -> Result<File, OpenError> {
    let file = match OpenOptions::new().create(true).append(true).open(rt, name) {
        Ok(file) => file,
        Err(error) => return Err(unless_memory(&error, OpenError::Unread)),
    };
    match file.try_lock() {
        Ok(()) => Ok(file),
        Err(fs::TryLockError::WouldBlock) => Err(OpenError::InUse),
        Err(fs::TryLockError::Error(error)) => Err(unless_memory(&error, OpenError::Unread)),
    }
}

/// Refuses what is there and is no regular file.
fn refuse_others(rt: &HostRuntime, name: &str) -> Result<(), OpenError> {
    match fs::metadata(rt, name) {
        Ok(found) if found.is_file() => Ok(()),
        Ok(_) => Err(OpenError::NotAFile),
        Err(error) if error.kind() == ErrorKind::NotFound => Ok(()),
        Err(error) => Err(unless_memory(&error, OpenError::Unread)),
    }
}

/// What a file has; none where it is not there.
fn contents(rt: &HostRuntime, name: &str) -> Result<Option<Vec<u8>>, OpenError> {
    match fs::read(rt, name) {
        Ok(bytes) => Ok(Some(bytes)),
        Err(error) if error.kind() == ErrorKind::NotFound => Ok(None),
        Err(error) => Err(unless_memory(&error, OpenError::Unread)),
    }
}

/// Two texts, one behind the other.
fn joined(rt: &HostRuntime, name: &str, end: &str) -> Result<String, OpenError> {
    match format!(in rt.alloc(); "{name}{end}") {
        Ok(text) => Ok(text),
        Err(_) => Err(OpenError::NoMemory),
    }
}

impl<'a> Host<'a> {
    /// The journal of this name, and what it has; none where it is not there. Behind its name and
    /// `.lock` stands the file that is locked. The header is its first line, with its end: `MAGIC`
    /// and whose journal it is.
    pub fn open(
        rt: &'a HostRuntime,
        name: &'a str,
        header: Vec<u8>,
    ) -> Result<(Host<'a>, Option<Vec<u8>>), OpenError> {
        refuse_others(rt, name)?;
        let next = joined(rt, name, ".new")?;
        let lock_name = joined(rt, name, ".lock")?;
        let lock = locked(rt, lock_name.as_str())?;
        let stored = contents(rt, name)?;
        let host = Host {
            rt,
            name,
            next,
            header,
            lock,
            journal: None,
            size: 0,
            whole: 0,
        };
        Ok((host, stored))
    }

    /// The folder of the journal.
    fn folder(&self) -> Path<'_> {
        match Path::new(self.name).parent() {
            Some(folder) if !folder.to_string_lossy().is_empty() => folder,
            _ => Path::new("."),
        }
    }

    /// A record of this payload, behind these bytes.
    fn record(&self, front: &[u8], payload: &[u8]) -> Result<Vec<u8>, NoMemory> {
        let mut bytes = Vec::new(self.rt.alloc());
        bytes.extend_from_slice(front)?;
        write_record(payload, &mut bytes)?;
        Ok(bytes)
    }
}

/// The error of want of memory.
fn no_memory(_lack: NoMemory) -> io::Error {
    io::Error::from(ErrorKind::OutOfMemory)
}

impl Outside for Host<'_> {
    fn read(&mut self, buffer: &mut [u8]) -> io::Result<usize> {
        self.rt.stdin().read(buffer)
    }

    fn is_long(&self) -> bool {
        self.size > LEAST_LONG && self.size / 2 > self.whole
    }

    fn append(&mut self, payload: &[u8]) -> io::Result<()> {
        let bytes = match self.record(b"".as_slice(), payload) {
            Ok(bytes) => bytes,
            Err(lack) => return Err(no_memory(lack)),
        };
        let Some(journal) = &mut self.journal else {
            return Err(io::Error::from(ErrorKind::NotFound));
        };
        journal.write_all(bytes.as_slice())?;
        journal.sync_data()?;
        self.size = self.size.saturating_add(bytes.len() as u64);
        Ok(())
    }

    // The journal is on the disk under a name of its own, then takes the place of what was there,
    // and then that is on the disk too.
    fn replace(&mut self, payload: &[u8]) -> io::Result<()> {
        let bytes = match self.record(self.header.as_slice(), payload) {
            Ok(bytes) => bytes,
            Err(lack) => return Err(no_memory(lack)),
        };
        let mut file = fs::create(self.rt, self.next.as_str())?;
        file.write_all(bytes.as_slice())?;
        file.sync_all()?;
        fs::rename(self.rt, self.next.as_str(), self.name)?;
        fs::open(self.rt, self.folder())?.sync_all()?;
        self.size = bytes.len() as u64;
        self.whole = self.size;
        self.journal = Some(file);
        Ok(())
    }

    fn send(&mut self, bytes: &[u8]) -> io::Result<()> {
        self.rt.stdout().write_all(bytes)
    }

    fn report(&mut self, line: &[u8]) -> io::Result<()> {
        self.rt.stderr().write_all(line)
    }
}
