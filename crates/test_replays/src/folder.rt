//! Where the program reads and writes here.
use runner::shelf::{Shelf, ShelfFault, may_write};
use std::fs;
use std::io::{self, ErrorKind, Write};
use std::rt::Files;

/// The files of the folder that the program runs in, and three more: `text.json` has this text, for
/// `full.json` there is no memory, and `transcript` has what was written last, under whatever name.
/// For `full` there is no memory when it is written, and `t` cannot be written; nor can what the
/// program's own files are not to be, the one that was read and `-`. What lies in a folder that is
/// not there, and what lies on a disk that is full, is written as the real files are, which fails.
#[derive(Drop)]
pub(crate) struct Folder<'a> {
    rt: &'a HostRuntime,
    text: &'a [u8],
    // The name of the file that was read last.
    read: Option<String>,
    transcript: Option<Vec<u8>>,
}

impl<'a> Folder<'a> {
    /// A folder without a transcript.
    pub(crate) fn new(rt: &'a HostRuntime, text: &'a [u8]) -> Folder<'a> {
        Folder {
            rt,
            text,
            read: None,
            transcript: None,
        }
    }

    /// The transcript, once it is written.
    pub(crate) fn transcript(&self) -> Option<&[u8]> {
        match &self.transcript {
            Some(bytes) => Some(bytes.as_slice()),
            None => None,
        }
    }

    // Whether a file of this name may be written.
    fn may_write(&self, name: &str) -> bool {
        match &self.read {
            Some(read) => may_write(name, Some(read.as_str())),
            None => may_write(name, None),
        }
    }
}

// A copy of bytes that are in memory.
fn copied(rt: &HostRuntime, bytes: &[u8]) -> Result<Vec<u8>, ShelfFault> {
    bytes.to_vec(rt.alloc()).map_err(|_| ShelfFault::NoMemory)
}

impl Shelf for Folder<'_> {
    fn read(&mut self, name: &str) -> Result<Vec<u8>, ShelfFault> {
        let named = String::from_str(self.rt.alloc(), name);
        self.read = Some(named.map_err(|_| ShelfFault::NoMemory)?);
        match name {
            "full.json" => Err(ShelfFault::NoMemory),
            "text.json" => copied(self.rt, self.text),
            "transcript" => match &self.transcript {
                Some(bytes) => copied(self.rt, bytes.as_slice()),
                None => Err(ShelfFault::Failed),
            },
            _ => fs::read(self.rt, name).map_err(|_| ShelfFault::Failed),
        }
    }

    fn write(&mut self, name: &str, bytes: &[u8]) -> Result<(), ShelfFault> {
        if !self.may_write(name) {
            return Err(ShelfFault::Failed);
        }
        match name {
            "full" => Err(ShelfFault::NoMemory),
            "t" => Err(ShelfFault::Failed),
            "missing/t" | "/dev/full" => {
                fs::write(self.rt, name, bytes).map_err(|_| ShelfFault::Failed)
            }
            _ => {
                self.transcript = Some(copied(self.rt, bytes)?);
                Ok(())
            }
        }
    }
}

/// A standard output that fails once so many bytes are written, and where it is flushed if none was
/// left. It is the one for each play, so that the program is built for one.
#[derive(Drop)]
pub(crate) struct Output {
    pub(crate) left: usize,
    pub(crate) bytes: Vec<u8>,
}

impl Write for Output {
    fn write(&mut self, buf: &[u8]) -> io::Result<usize> {
        let count = buf.len().min(self.left);
        if self.left == 0 {
            return Err(io::Error::from(ErrorKind::BrokenPipe));
        }
        self.bytes.extend_from_slice(&buf[..count])?;
        self.left -= count;
        Ok(count)
    }

    fn flush(&mut self) -> io::Result<()> {
        if self.left == 0 {
            return Err(io::Error::from(ErrorKind::BrokenPipe));
        }
        Ok(())
    }
}
