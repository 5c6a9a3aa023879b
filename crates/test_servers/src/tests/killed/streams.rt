//! What passes between a process and the world outside, in memory. What comes is handed in, and the
//! process is killed where that is wanted.
use journal::{Outside, write_record};
use std::alloc::Global;
use std::io;
use std::io::ErrorKind;

/// When a process is killed, within what it does with the last that came.
#[derive(Clone, Copy)]
pub(super) enum Kill {
    /// It is not.
    Never,
    /// So many items have left, and no more do.
    Sending(usize),
    /// So many bytes of a record are written, or all where it has fewer. They stay.
    Writing(usize),
    /// A record is written, and the power is lost: what is not synced is gone.
    PowerLost,
}

/// The item that asks how the server stands, with its length.
const SHOW: &[u8] = &[0, 0, 0, 1, b'S'];

/// The streams of a process, and its journal.
#[derive(Drop)]
pub(super) struct Streams<'a> {
    alloc: Global,
    /// The first line of the journal.
    header: &'a [u8],
    /// What comes, read by read. Behind it comes the question how the server stands.
    reads: &'a [Vec<u8>],
    /// How many reads there were.
    count: usize,
    kill: Kill,
    /// The journal, and how many bytes of it are synced.
    pub(super) journal: Vec<u8>,
    synced: usize,
    /// What has left since the last of `reads` came, item by item.
    pub(super) sent: Vec<Vec<u8>>,
    /// The line that was reported last.
    pub(super) line: Vec<u8>,
}

/// What comes at a read: none where the input is at its end.
fn coming<'a>(reads: &'a [Vec<u8>], count: usize) -> Option<&'a [u8]> {
    match reads.get(count) {
        Some(bytes) => Some(bytes.as_slice()),
        None if count == reads.len() => Some(SHOW),
        None => None,
    }
}

/// The error of a process that is killed, or finds no memory.
fn ended() -> io::Error {
    io::Error::from(ErrorKind::BrokenPipe)
}

impl<'a> Streams<'a> {
    /// Those of a process that begins with no journal, or with this one.
    pub(super) fn new(
        alloc: Global,
        header: &'a [u8],
        stored: &[u8],
        reads: &'a [Vec<u8>],
        kill: Kill,
    ) -> Option<Streams<'a>> {
        let mut journal = Vec::new(alloc);
        journal.extend_from_slice(stored).ok()?;
        Some(Streams {
            alloc,
            header,
            reads,
            count: 0,
            kill,
            synced: 0,
            journal,
            sent: Vec::new(alloc),
            line: Vec::new(alloc),
        })
    }

    /// How it is killed within what it does now.
    fn kill_now(&self) -> Kill {
        if self.count == self.reads.len() {
            self.kill
        } else {
            Kill::Never
        }
    }

    /// What was written is synced.
    fn sync(&mut self) {
        self.synced = self.journal.len();
    }
}

impl Outside for Streams<'_> {
    fn read(&mut self, buffer: &mut [u8]) -> io::Result<usize> {
        let Some(bytes) = coming(self.reads, self.count) else {
            return Ok(0);
        };
        if bytes.len() > buffer.len() {
            return Err(ended());
        }
        buffer[..bytes.len()].copy_from_slice(bytes);
        if self.count < self.reads.len() {
            self.sent.clear();
        }
        self.count = self.count.saturating_add(1);
        Ok(bytes.len())
    }

    fn is_long(&self) -> bool {
        false
    }

    fn append(&mut self, payload: &[u8]) -> io::Result<()> {
        let front = self.journal.len();
        if write_record(payload, &mut self.journal).is_err() {
            return Err(ended());
        }
        match self.kill_now() {
            Kill::Writing(most) => {
                self.journal.truncate(front.saturating_add(most));
                Err(ended())
            }
            Kill::PowerLost => {
                self.journal.truncate(self.synced);
                Err(ended())
            }
            Kill::Never | Kill::Sending(_) => {
                self.sync();
                Ok(())
            }
        }
    }

    fn replace(&mut self, payload: &[u8]) -> io::Result<()> {
        self.journal.clear();
        if self.journal.extend_from_slice(self.header).is_err()
            || write_record(payload, &mut self.journal).is_err()
        {
            return Err(ended());
        }
        self.sync();
        Ok(())
    }

    fn send(&mut self, bytes: &[u8]) -> io::Result<()> {
        if let Kill::Sending(most) = self.kill_now() {
            if self.sent.len() >= most {
                return Err(ended());
            }
        }
        let mut item = Vec::new(self.alloc);
        if item.extend_from_slice(bytes).is_err() || self.sent.push(item).is_err() {
            return Err(ended());
        }
        Ok(())
    }

    fn report(&mut self, line: &[u8]) -> io::Result<()> {
        self.line.clear();
        match self.line.extend_from_slice(line) {
            Ok(()) => Ok(()),
            Err(_) => Err(ended()),
        }
    }
}
