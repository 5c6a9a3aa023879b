//! A server of three as a process. It is begun, takes what comes, and is killed.
use super::streams::{Kill, Streams};
use example_bank::Bank;
use example_bank_server::{Node, begin, live};
use rows::ServerId;
use std::alloc::Global;

/// A process, between what comes to it.
#[derive(Drop)]
pub(super) struct Process {
    me: ServerId,
    /// What its journal had when it began: nothing where it was not there.
    stored: Vec<u8>,
    /// What has come since, read by read.
    reads: Vec<Vec<u8>>,
    /// How it says that it stands: nothing while it does not run.
    line: Vec<u8>,
}

/// The first line of the journal of each server.
const HEADERS: [&[u8]; 3] = [
    b"minutebarn journal 1 bank_node 1 of 3\n",
    b"minutebarn journal 1 bank_node 2 of 3\n",
    b"minutebarn journal 1 bank_node 3 of 3\n",
];

/// What a process has done since it began, done again: what came decides it.
fn life<'a>(alloc: Global, process: &'a Process, kill: Kill) -> Option<Streams<'a>> {
    let header: &'static [u8] = HEADERS.get(process.me.position())?;
    let stored = process.stored.as_slice();
    let found = if stored.is_empty() {
        None
    } else {
        Some(stored)
    };
    let server = begin::<Bank>(alloc, process.me, 3, header, found).ok()?;
    let mut node = Node::new(server);
    let mut streams = Streams::new(alloc, header, stored, process.reads.as_slice(), kill)?;
    let is_ended = live(alloc, &mut node, &mut streams).is_err();
    if is_ended == matches!(kill, Kill::Never) {
        return None;
    }
    Some(streams)
}

impl Process {
    /// One that never ran.
    pub(super) fn new(alloc: Global, me: ServerId) -> Process {
        Process {
            me,
            stored: Vec::new(alloc),
            reads: Vec::new(alloc),
            line: Vec::new(alloc),
        }
    }

    /// Which server it is.
    pub(super) fn me(&self) -> ServerId {
        self.me
    }

    /// How it says that it stands: nothing while it does not run.
    pub(super) fn line(&self) -> &[u8] {
        self.line.as_slice()
    }

    /// It begins, with what its journal has.
    pub(super) fn begin(&mut self, alloc: Global) -> Option<()> {
        let Streams { line, .. } = life(alloc, self, Kill::Never)?;
        self.line = line;
        Some(())
    }

    /// It takes what one read brings, and lives on, or is killed. The items that left are answered.
    pub(super) fn take(
        &mut self,
        alloc: Global,
        batch: Vec<u8>,
        kill: Kill,
    ) -> Option<Vec<Vec<u8>>> {
        self.reads.push(batch).ok()?;
        let Streams {
            journal,
            sent,
            line,
            ..
        } = life(alloc, self, kill)?;
        if let Kill::Never = kill {
            self.line = line;
        } else {
            self.stored = journal;
            self.reads.clear();
            self.line.clear();
        }
        Some(sent)
    }
}
