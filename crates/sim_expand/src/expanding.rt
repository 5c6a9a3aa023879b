//! The steps that a scenario in short form takes.
ghost use Rattle.std.specs.Prelude.{◌≡◌, ◌≤◌, ◌*◌, ◌||◌, ◌∷◌, [], ℕ, List, IfErr, IfOk, OnOk};
ghost use Rattle.std.specs.Prelude.{false, length, map, string_bytes, take, true};
ghost use Rattle.std.specs.List.{All};
ghost use Rattle.world.specs.GroupSteps.{WhyNoGroup};
ghost use Rattle.sim_play.specs.declared.play.Play.{Play};
ghost use Rattle.sim_expand.specs.EachInTurn.{OfEachBehind};
ghost use Rattle.sim_expand.specs.Counts.{most_at_once, most_elected};
ghost use Rattle.sim_expand.specs.Expanded.{AreElecting, AreTaken, LinesAt, LinesOf, MayStand};
ghost use Rattle.sim_expand.specs.Inner.Deliveries.{IsSent};
ghost use Rattle.sim_expand.specs.Inner.Taking.{Delivers, IsNoFlowLine, StandsAsTaken, TakesIf};
ghost use Rattle.sim_expand.specs.Inner.Taking.{TakesMore, TakesThese, TakesUpTo, most_in_flow};
ghost use Rattle.sim_expand.specs.Inner.Taking.{WhyNoLine, WhyNoMore, WhyNoShort};
ghost use Rattle.sim_expand.specs.ShortSteps.{AsItStands, is_elect, short_step};
ghost use Rattle.sim_expand.specs.Stops.{WhyNotExpanded};

use crate::flowing::{comes, deliver_line, delivered_by, flow_of, take_out};
use crate::settling::{Left, beat_line, next_of, plan_line, pull_lines, take_line, work_line};
use crate::short::{MOST, ShortStep};
use crate::standing::{Standing, standing_of};
use lossy_net::{MessageFate, fate};
use rows::{NoMemory, NodeSpec, Refusal};
use sim_play::lines::play_line;
use sim_play::play::Play;
use sim_recovery::election;
use sim_scenario::scenario::Settings;
use std::alloc::Global;

// How often something is done at most where a `settle` has no number.
const ROUNDS: u64 = 1_000;

// How many steps a `settle elect` takes at most.
const MOST_ELECTED: usize = 10_000;

// How many messages a flow of a `settle` takes at most behind a `settle elect`. The next time takes
// the others.
const MOST_DELIVERED: u64 = 500;

// How often in a row something is done at most that changes nothing, as where messages are lost.
const MOST_IN_VAIN: u64 = 20;

// A group, and the steps that led to it from its beginning. What it was made of is named by
// contracts alone. Behind a `settle elect` no step takes a message out of flight or draws a word.
// So both are done here: what an election or a flow delivered is not in flight.
#[derive(Drop)]
struct Taken<'s> {
    alloc: Global,
    settings: Settings,
    nodes: &'s [NodeSpec],
    lines: Vec<String>,
    play: Play,
    // Whether a `settle elect` was taken.
    behind: bool,
}

/// The steps that these take on a new group of these settings and nodes: each plain one as it
/// stands, for a `settle` those that it takes there, up to 65 for each time that it does something,
/// and for a `settle elect` up to 10,000 by which the group settles there. Behind that each flow is
/// taken as its deliveries, of a `settle` up to 500 each time. Fails with 12 where there is no such
/// group, where a plain step is none, or where they come to more than 1,000,000; with 1 where there
/// is no memory, for an actor of the group too.
pub fn expanded(
    alloc: Global,
    settings: Settings,
    nodes: &[NodeSpec],
    steps: &[ShortStep],
) -> Result<Vec<String>, Refusal>
    ensures order { IfOk result (λ lines.
        OfEachBehind (LinesOf settings nodes.now) [] [] (map short_step steps.now)
        (map string_bytes lines.items)) }
    ensures taken { IfOk result (λ lines. (play : Play)
        × AreTaken settings nodes.now (map string_bytes lines.items) play) }
    ensures most { IfOk result (λ lines. length lines.items ≤ MOST) }
    ensures refused { IfErr result (WhyNotExpanded settings nodes.now (map short_step steps.now)) }
{
    let mut taken = Taken::new(alloc, settings, nodes)?;
    for step in steps {
        taken.take(step)?;
    }
    Ok(taken.into_lines())
}

// How often something may still be done in vain, after something was done.
fn left_in_vain(left: u64, was_in_vain: bool) -> u64 {
    if was_in_vain {
        left.saturating_sub(1)
    } else {
        MOST_IN_VAIN
    }
}

// The first lines of an election, as many as are taken.
fn first_elected(lines: &[String]) -> &[String]
    ensures { result.now ≡ take most_elected lines.now }
{
    match lines.get(..MOST_ELECTED) {
        Some(front) => front,
        None => lines,
    }
}

impl<'s> Taken<'s> {
    // A new group.
    fn new(alloc: Global, settings: Settings, nodes: &'s [NodeSpec]) -> Result<Taken<'s>, Refusal>
        ensures settings { IfOk result (λ t. t.settings ≡ settings) }
        ensures nodes { IfOk result (λ t. t.nodes.now ≡ nodes.now) }
        ensures none { IfOk result (λ t. t.lines.items ≡ []) }
        ensures before { IfOk result (λ t. t.behind ≡ false) }
        ensures stands { IfOk result StandsAsTaken }
        ensures refused { IfErr result (WhyNoGroup settings.servers nodes.now) }
    {
        Ok(Taken {
            alloc,
            settings,
            nodes,
            lines: Vec::new(alloc),
            play: Play::new(alloc, settings, nodes)?,
            behind: false,
        })
    }

    fn into_lines(self) -> Vec<String>
        ensures { result ≡ self.entry.lines }
    {
        let Taken {
            alloc: _,
            settings: _,
            nodes: _,
            lines,
            play: _,
            behind: _,
        } = self;
        lines
    }

    fn take(&mut self, step: &ShortStep) -> Result<(), Refusal>
        requires { StandsAsTaken self.old }
        ensures ok { OnOk result ((own : List (List ℕ))
            × LinesAt self.old.settings self.old.nodes.now self.old.behind
            (map string_bytes self.old.lines.items) (short_step step.now) own
            × TakesMore self.old own self.new) }
        ensures behind { OnOk result
            (self.new.behind ≡ (self.old.behind || is_elect (short_step step.now))) }
        ensures refused { IfErr result (WhyNoShort (short_step step.now) self.old) }
    {
        match step {
            ShortStep::Plain(line) => self.plain(line.as_str()),
            ShortStep::Settle(count) => self.settle(count.unwrap_or(ROUNDS)),
            ShortStep::Elect => self.elect(),
        }
    }

    // Takes the step of a line that is taken as it stands; behind a `settle elect` the deliveries
    // of a flow.
    fn plain(&mut self, line: &str) -> Result<(), Refusal>
        requires { StandsAsTaken self.old }
        ensures ok { OnOk result ((own : List (List ℕ))
            × LinesAt self.old.settings self.old.nodes.now self.old.behind
            (map string_bytes self.old.lines.items) (AsItStands line.now) own
            × TakesThese self.old own self.new) }
        ensures refused { IfErr result (WhyNoShort (AsItStands line.now) self.old) }
    {
        if !self.behind {
            return self.line(line);
        }
        match flow_of(line) {
            Some(most) => self.deliver(most),
            None => self.line(line),
        }
    }

    // Takes the step of a line.
    fn line(&mut self, line: &str) -> Result<(), Refusal>
        requires stands { StandsAsTaken self.old }
        requires may_stand { MayStand self.old.behind line.now }
        ensures ok { OnOk result (TakesThese self.old (line.now ∷ []) self.new) }
        ensures refused { IfErr result (WhyNoLine line.now self.old) }
    {
        if MOST <= self.lines.len() {
            return Err(Refusal::OutOfRange);
        }
        let own = String::from_str(self.alloc, line)?;
        play_line(self.alloc, line, &mut self.play)?;
        if self.play.lacked {
            return Err(Refusal::NoMemory);
        }
        self.lines.push(own)?;
        Ok(())
    }

    // Takes the steps by which the group settles, who is down staying so.
    fn elect(&mut self) -> Result<(), Refusal>
        requires { StandsAsTaken self.old }
        ensures ok { OnOk result ((own : List (List ℕ))
            × AreElecting self.old.settings self.old.nodes.now
            (map string_bytes self.old.lines.items) own
            × TakesMore self.old own self.new) }
        ensures behind { OnOk result (self.new.behind ≡ true) }
        ensures refused { IfErr result (WhyNoMore most_elected self.old) }
    {
        let servers = usize::from(self.settings.servers);
        match election(self.alloc, servers, self.nodes, self.play.world.trace()) {
            Ok(lines) => self.take_elected(first_elected(&lines)),
            // A group of its size is made, unless there is no memory.
            Err(_) => Err(Refusal::NoMemory),
        }
    }

    // Takes the lines of an election. What they deliver is no longer in flight then.
    fn take_elected(&mut self, lines: &[String]) -> Result<(), Refusal>
        requires stands { StandsAsTaken self.old }
        requires steps { All IsNoFlowLine (map string_bytes lines.now) }
        ensures ok { OnOk result (TakesMore self.old (map string_bytes lines.now) self.new) }
        ensures behind { OnOk result (self.new.behind ≡ true) }
        ensures refused { IfErr result (WhyNoMore (length lines.now) self.old) }
    {
        self.take_lines(lines)?;
        self.behind = true;
        let delivered = delivered_by(self.alloc, lines)?;
        Ok(take_out(&mut self.play.flight, &delivered)?)
    }

    // Does what is left to do, up to so many times, and until so many of them in a row changed
    // nothing.
    fn settle(&mut self, most: u64) -> Result<(), Refusal>
        requires { StandsAsTaken self.old }
        ensures ok { OnOk result
            (TakesUpTo (most * most_at_once self.old.behind) self.old self.new) }
        ensures refused { IfErr result
            (WhyNoMore (most * most_at_once self.old.behind) self.old) }
    {
        let mut before = standing_of(self.alloc, &self.play)?;
        let mut left = MOST_IN_VAIN;
        for _ in 0..most {
            if left == 0 {
                return Ok(());
            }
            let done = self.round(&before)?;
            if !done {
                return Ok(());
            }
            let after = standing_of(self.alloc, &self.play)?;
            left = left_in_vain(left, before == after);
            before = after;
        }
        Ok(())
    }

    // Does the first of what is left to do, and answers whether there was anything.
    fn round(&mut self, standing: &Standing) -> Result<bool, Refusal>
        requires { StandsAsTaken self.old }
        ensures ok { IfOk result (λ done.
            TakesIf done (most_at_once self.old.behind) self.old self.new) }
        ensures refused { IfErr result (WhyNoMore (most_at_once self.old.behind) self.old) }
    {
        if standing.in_flight {
            self.flow()?;
            return Ok(true);
        }
        let Some(left) = next_of(self.alloc, &self.play, standing)? else {
            return Ok(false);
        };
        self.take_left(left)?;
        Ok(true)
    }

    // Takes the steps of what is left to do.
    fn take_left(&mut self, left: Left) -> Result<(), Refusal>
        requires { StandsAsTaken self.old }
        ensures ok { OnOk result
            (TakesUpTo (most_at_once self.old.behind) self.old self.new) }
        ensures refused { IfErr result (WhyNoMore (most_at_once self.old.behind) self.old) }
    {
        match left {
            Left::Work(server) => self.go(&[work_line(self.alloc, server)?]),
            Left::Plan(server) => self.go(&[plan_line(self.alloc, server)?]),
            Left::Beat(server) => self.go(&[beat_line(self.alloc, server)?]),
            Left::Take(server) => self.go(&[take_line(self.alloc, server)?]),
            Left::Pull(server, news) => {
                let lines = pull_lines(self.alloc, &self.play.world, server, news)?;
                self.go(&lines)
            }
        }
    }

    // Takes the steps of these lines, and a flow behind them where messages are in flight then.
    fn go(&mut self, lines: &[String]) -> Result<(), Refusal>
        requires stands { StandsAsTaken self.old }
        requires steps { All IsNoFlowLine (map string_bytes lines.now) }
        requires few { length lines.now ≤ 64 }
        ensures ok { OnOk result
            (TakesUpTo (most_at_once self.old.behind) self.old self.new) }
        ensures refused { IfErr result (WhyNoMore (most_at_once self.old.behind) self.old) }
    {
        self.take_lines(lines)?;
        self.flow()
    }

    // Takes the steps of these lines.
    fn take_lines(&mut self, lines: &[String]) -> Result<(), Refusal>
        requires stands { StandsAsTaken self.old }
        requires steps { All IsNoFlowLine (map string_bytes lines.now) }
        ensures ok { OnOk result (TakesThese self.old (map string_bytes lines.now) self.new) }
        ensures refused { IfErr result (WhyNoMore (length lines.now) self.old) }
    {
        for line in lines {
            self.line(line.as_str())?;
        }
        Ok(())
    }

    // Takes a flow, where messages are in flight.
    fn flow(&mut self) -> Result<(), Refusal>
        requires { StandsAsTaken self.old }
        ensures ok { OnOk result (TakesUpTo (most_in_flow self.old.behind) self.old self.new) }
        ensures refused { IfErr result (WhyNoMore (most_in_flow self.old.behind) self.old) }
    {
        if self.play.flight.len() == 0 {
            return Ok(());
        }
        if self.behind {
            return self.deliver(MOST_DELIVERED);
        }
        self.line("flow")
    }

    // Takes the deliveries of a flow of up to so many messages.
    fn deliver(&mut self, most: u64) -> Result<(), Refusal>
        requires stands { StandsAsTaken self.old }
        requires behind { self.old.behind ≡ true }
        ensures ok { OnOk result (Delivers most self.old self.new) }
        ensures refused { IfErr result (WhyNoMore most self.old) }
    {
        for _ in 0..most {
            let Some(message) = self.next_message() else {
                return Ok(());
            };
            self.pass(message)?;
        }
        Ok(())
    }

    // Takes the message in flight that comes next out of flight.
    fn next_message(&mut self) -> Option<u64>
        requires stands { StandsAsTaken self.old }
        requires behind { self.old.behind ≡ true }
        ensures { Delivers 0 self.old self.new }
    {
        self.play.take_message()
    }

    // A message that was taken out of flight meets its fate, as in a flow. It is lost too where its
    // receiver is down.
    fn pass(&mut self, message: u64) -> Result<(), Refusal>
        requires stands { StandsAsTaken self.old }
        requires behind { self.old.behind ≡ true }
        ensures ok { OnOk result (Delivers 1 self.old self.new) }
        ensures refused { IfErr result (WhyNoMore 1 self.old) }
    {
        let fate = self.fate();
        if fate == MessageFate::Lose || !comes(&self.play.world, message) {
            return Ok(());
        }
        self.arrive(message)?;
        if fate == MessageFate::Repeat {
            return Ok(self.put_again(message)?);
        }
        Ok(())
    }

    // The fate that the next word gives.
    fn fate(&mut self) -> MessageFate
        requires stands { StandsAsTaken self.old }
        requires behind { self.old.behind ≡ true }
        ensures none { Delivers 0 self.old self.new }
        ensures world { self.new.play.world ≡ self.old.play.world }
    {
        fate(self.play.fates.next(), self.play.drop, self.play.repeat)
    }

    // Takes the line by which a message comes.
    fn arrive(&mut self, message: u64) -> Result<(), Refusal>
        requires stands { StandsAsTaken self.old }
        requires behind { self.old.behind ≡ true }
        requires sent { IsSent self.old.play.world message }
        ensures ok { OnOk result (Delivers 1 self.old self.new) }
        ensures refused { IfErr result (WhyNoMore 1 self.old) }
    {
        let line = deliver_line(self.alloc, message)?;
        self.line(line.as_str())
    }

    // Puts a message in flight again.
    fn put_again(&mut self, message: u64) -> Result<(), NoMemory>
        requires stands { StandsAsTaken self.old }
        requires behind { self.old.behind ≡ true }
        ensures { OnOk result (Delivers 0 self.old self.new) }
    {
        self.play.flight.put_again(message)
    }
}
