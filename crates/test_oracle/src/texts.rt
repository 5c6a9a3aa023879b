//! The texts of the states that servers had, by how many entries they had applied.
use machine::Machine;
use rows::{Index, NoMemory};
use server::Server;
use std::alloc::Global;

// A state's text, and how many entries it has applied.
#[derive(Drop)]
struct Seen {
    applied: Index,
    text: Vec<u8>,
}

/// The texts that were seen; each number of entries stands there once.
#[derive(Drop)]
pub(crate) struct Texts {
    seen: Vec<Seen>,
}

// The state of a server; none where that is down.
fn seen_of(alloc: Global, server: &Server) -> Result<Option<Seen>, NoMemory> {
    let (Some(state), Some(applied)) = (server.state(), server.applied()) else {
        return Ok(None);
    };
    let mut text = Vec::new(alloc);
    state.save(&mut text)?;
    Ok(Some(Seen { applied, text }))
}

impl Texts {
    /// None was seen yet.
    pub(crate) fn new(alloc: Global) -> Texts {
        Texts {
            seen: Vec::new(alloc),
        }
    }

    // Whether this is the text that was seen at as many entries; none where none was.
    fn is_the_one(&self, now: &Seen) -> Option<bool> {
        for before in &self.seen {
            if before.applied == now.applied {
                return Some(before.text == now.text);
            }
        }
        None
    }

    /// Whether a server has the text that was seen at as many entries, if one was; else its own is
    /// the one that was seen from now on.
    pub(crate) fn take_in(&mut self, alloc: Global, server: &Server) -> Result<bool, NoMemory> {
        let Some(now) = seen_of(alloc, server)? else {
            return Ok(true);
        };
        match self.is_the_one(&now) {
            Some(is_same) => Ok(is_same),
            None => {
                self.seen.push(now)?;
                Ok(true)
            }
        }
    }

    /// Whether a server has the text that was seen at as many entries.
    pub(crate) fn has(&self, alloc: Global, server: &Server) -> Result<bool, NoMemory> {
        let Some(now) = seen_of(alloc, server)? else {
            return Ok(true);
        };
        Ok(matches!(self.is_the_one(&now), Some(true)))
    }
}
