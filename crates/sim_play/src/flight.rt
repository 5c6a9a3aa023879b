//! Messages in flight.
ghost use Rattle.std.specs.Prelude.{◌≡◌, ◌++◌, ◌∷◌, ◌+◌, ◌<◌, [], OnOk, OnErr, IfSome, IfNone, max, length, MatchOption, slice_get, Some};
ghost use Rattle.std.specs.List.{remove};
ghost use Rattle.sim_play.specs.Flight.{newly_sent};
ghost use Rattle.sim_play.specs.Inner.Lines.{standing, StandCounted};

use crate::waiting::Waiting;
use rows::NoMemory;
use sim_scenario::scenario::Order;
use std::alloc::Global;
use std::collections::VecDeque;
use std::marker::Model;

/// Numbers in a row: a queue where they are taken at its front, and a tree that counts them where
/// they are taken at any place.
#[derive(Drop)]
enum Line {
    Queue(VecDeque<u64>),
    Tree(Waiting),
}

/// No number, of a line that is taken from in this order.
fn line_for(alloc: Global, order: Order) -> Line
    ensures none { standing result ≡ [] }
    ensures counted { StandCounted result }
{
    match order {
        Order::Sent => Line::Queue(VecDeque::new(alloc)),
        Order::Any => Line::Tree(Waiting::new(alloc)),
    }
}

/// Takes out the number at a place, the first being place 0. The others stay in their order.
fn take_from(alloc: Global, line: &mut Line, place: usize) -> u64
    requires counted { StandCounted line.old }
    requires within { place < length (standing line.old) }
    ensures taken { slice_get (standing line.old) place ≡ Some result }
    ensures others { standing line.new ≡ remove (standing line.old) place }
    ensures counted { StandCounted line.new }
{
    match line {
        Line::Queue(queue) => match queue.remove(place) {
            Some(number) => number,
            None => unreachable!(),
        },
        Line::Tree(tree) => tree.take_at(alloc, place),
    }
}

/// Puts a number behind the others, of which there are so many. Without memory nothing changes.
fn put_behind(alloc: Global, line: &mut Line, many: usize, number: u64) -> Result<(), NoMemory>
    requires counted { StandCounted line.old }
    requires many { many ≡ length (standing line.old) }
    ensures behind { OnOk result (standing line.new ≡ standing line.old ++ number ∷ []) }
    ensures left { OnErr result (standing line.new ≡ standing line.old) }
    ensures counted { StandCounted line.new }
{
    match line {
        Line::Queue(queue) => Ok(queue.push_back(number)?),
        Line::Tree(tree) => tree.push(alloc, many, number),
    }
}

/// Makes a tree without numbers as small as it began.
fn begin_anew(alloc: Global, line: &mut Line)
    requires none { standing line.old ≡ [] }
    requires counted { StandCounted line.old }
    ensures none { standing line.new ≡ [] }
    ensures counted { StandCounted line.new }
{
    if let Line::Tree(tree) = line {
        *tree = Waiting::new(alloc);
    }
}

/// The numbers of the messages in flight: those that were sent, in that order, but for those that a
/// flow has taken; behind them those that were put in flight again.
#[derive(Drop)]
pub struct Flight {
    alloc: Global,
    line: Line,
    // How many these are.
    many: usize,
    // How many of the messages ever sent have been put in flight.
    seen: u64,
}

impl Model for Flight {
    ghost use Rattle.std.specs.Prelude.{◌≡◌, length};
    ghost use Rattle.sim_play.specs.Flight.{InFlight};
    ghost use Rattle.sim_play.specs.Inner.Lines.{standing, StandCounted};

    ghost Value = { InFlight };

    ghost view = { λ f. record { waiting = standing f.line; seen = f.seen } };

    ghost invariant = { λ f. StandCounted f.line × (f.many ≡ length (standing f.line)) };
}

impl Flight {
    /// No message. What a call costs goes by the order in which they will be taken, what it does
    /// does not.
    pub fn new(alloc: Global, order: Order) -> Flight
        ensures { (result.waiting ≡ []) × (result.seen ≡ 0) }
    {
        Flight {
            alloc,
            line: line_for(alloc, order),
            many: 0,
            seen: 0,
        }
    }

    /// How many messages are in flight.
    pub fn len(&self) -> usize
        ensures { result ≡ length self.now.waiting }
    {
        self.many
    }

    /// Puts the messages sent since the last call behind the others, `sent` being the number of all
    /// that were ever sent.
    pub fn add_sent(&mut self, sent: u64) -> Result<(), NoMemory>
        ensures order { OnOk result (self.new.waiting ≡ self.old.waiting
            ++ newly_sent self.old.seen sent) }
        ensures seen { OnOk result (self.new.seen ≡ max self.old.seen sent) }
    {
        for number in self.seen..sent {
            self.put_again(number + 1)?;
        }
        self.seen = self.seen.max(sent);
        Ok(())
    }

    /// Takes the message at the front; none where none is in flight.
    pub fn take(&mut self) -> Option<u64>
        ensures front { MatchOption result ((self.old.waiting ≡ []) × (self.new.waiting ≡ []))
            (λ message. self.old.waiting ≡ message ∷ self.new.waiting) }
        ensures seen { self.new.seen ≡ self.old.seen }
    {
        if let Line::Queue(queue) = &mut self.line {
            let message = queue.pop_front()?;
            self.many -= 1;
            return Some(message);
        }
        self.take_at(0)
    }

    /// Takes the message at a place, the front being place 0; none where fewer are in flight. The
    /// others stay in their order.
    pub fn take_at(&mut self, place: usize) -> Option<u64>
        ensures some { IfSome result (λ message. (slice_get self.old.waiting place ≡ Some message)
            × (self.new.waiting ≡ remove self.old.waiting place)) }
        ensures none { IfNone result (length self.old.waiting < place + 1) }
        ensures left { IfNone result (self.new ≡ self.old) }
        ensures seen { self.new.seen ≡ self.old.seen }
    {
        if place >= self.many {
            return None;
        }
        let message = take_from(self.alloc, &mut self.line, place);
        self.many -= 1;
        if self.many == 0 {
            begin_anew(self.alloc, &mut self.line);
        }
        Some(message)
    }

    /// Puts a message in flight again, behind the others. Without memory nothing changes.
    pub fn put_again(&mut self, message: u64) -> Result<(), NoMemory>
        ensures behind { OnOk result (self.new.waiting ≡ self.old.waiting ++ message ∷ []) }
        ensures seen { self.new.seen ≡ self.old.seen }
        ensures left { OnErr result (self.new ≡ self.old) }
    {
        let more = self.many.checked_add(1).ok_or(NoMemory)?;
        put_behind(self.alloc, &mut self.line, self.many, message)?;
        self.many = more;
        Ok(())
    }
}
