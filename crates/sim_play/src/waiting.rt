//! Numbers in a row, as a tree that counts them: to take one out of thousands costs a way down the
//! tree, and a move within a short block.
ghost use Rattle.std.specs.Prelude.{◌≡◌, ◌++◌, ◌∷◌, ◌<◌, [], OnErr, OnOk, length, slice_get, Some};
ghost use Rattle.std.specs.List.{remove};
ghost use Rattle.sim_play.specs.Inner.Waiting.{IsCounted, numbers};

use rows::NoMemory;
use std::alloc::Global;
use std::mem;

// How many numbers a block takes.
const BLOCK: usize = 64;

/// Numbers in a row.
#[derive(Drop)]
pub(crate) enum Waiting {
    /// Those of a block.
    Block(Vec<u64>),
    /// Those on the left, and behind them those on the right.
    Fork {
        left: Box<Waiting>,
        // How many stand on the left.
        count: usize,
        right: Box<Waiting>,
        // The right side is made for as many numbers as the left side took. So many more may come
        // to it, and then the whole becomes the left side of a fork.
        span: u64,
        capacity: u64,
    },
}

impl Waiting {
    /// No number.
    pub(crate) fn new(alloc: Global) -> Waiting
        ensures none { numbers result ≡ [] }
        ensures counted { IsCounted result }
    {
        Waiting::Block(Vec::new(alloc))
    }

    /// Puts a number behind the others, of which there are so many. Without memory nothing changes.
    pub(crate) fn push(&mut self, alloc: Global, many: usize, number: u64) -> Result<(), NoMemory>
        requires counted { IsCounted self.old }
        requires many { many ≡ length (numbers self.old) }
        ensures behind { OnOk result (numbers self.new ≡ numbers self.old ++ number ∷ []) }
        ensures left { OnErr result (numbers self.new ≡ numbers self.old) }
        ensures counted { IsCounted self.new }
    {
        if self.is_full() {
            return self.widen(alloc, many, number);
        }
        match self {
            Waiting::Block(block) => Ok(block.push(number)?),
            Waiting::Fork {
                count,
                right,
                capacity,
                ..
            } => {
                right.push(alloc, many - *count, number)?;
                *capacity = capacity.saturating_sub(1);
                Ok(())
            }
        }
    }

    /// Takes out the number at a place, the first being place 0. The others stay in their order.
    pub(crate) fn take_at(&mut self, alloc: Global, place: usize) -> u64
        requires counted { IsCounted self.old }
        requires within { place < length (numbers self.old) }
        ensures taken { slice_get (numbers self.old) place ≡ Some result }
        ensures others { numbers self.new ≡ remove (numbers self.old) place }
        ensures counted { IsCounted self.new }
    {
        match self {
            Waiting::Block(block) => block.remove(place),
            Waiting::Fork {
                left,
                count,
                right,
                ..
            } => {
                if place >= *count {
                    return right.take_at(alloc, place - *count);
                }
                *count -= 1;
                let number = left.take_at(alloc, place);
                if *count == 0 {
                    **left = Waiting::new(alloc);
                }
                number
            }
        }
    }

    // Whether its last side has taken all that it is made for.
    fn is_full(&self) -> bool {
        match self {
            Waiting::Block(block) => block.len() >= BLOCK,
            Waiting::Fork { capacity, .. } => *capacity == 0,
        }
    }

    // How many numbers it was made for.
    fn span(&self) -> u64 {
        match self {
            Waiting::Block(_) => BLOCK as u64,
            Waiting::Fork { span, .. } => span.saturating_mul(2),
        }
    }

    // It becomes the left side of a fork, with a number on the right.
    fn widen(&mut self, alloc: Global, many: usize, number: u64) -> Result<(), NoMemory>
        requires counted { IsCounted self.old }
        requires many { many ≡ length (numbers self.old) }
        ensures behind { OnOk result (numbers self.new ≡ numbers self.old ++ number ∷ []) }
        ensures left { OnErr result (numbers self.new ≡ numbers self.old) }
        ensures counted { IsCounted self.new }
    {
        let span = self.span();
        let mut block = Vec::new(alloc);
        block.push(number)?;
        let right = Box::new(alloc, Waiting::Block(block))?;
        let mut left = Box::new(alloc, Waiting::new(alloc))?;
        mem::swap(self, &mut *left);
        *self = Waiting::Fork {
            left,
            count: many,
            right,
            span,
            capacity: span.saturating_sub(1),
        };
        Ok(())
    }
}
