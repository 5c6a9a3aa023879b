//! What a server does by itself.
ghost use Rattle.std.specs.Prelude.{◌≡◌, ◌+◌, ◌<◌, ◌^◌, ◌++◌, true, false, nat_le, IfOk, MatchOption, OnOk, OnErr, map};
ghost use Rattle.timers.specs.Waits.{waits_anew};
ghost use Rattle.timers.specs.declared.due.Due.TheVariants.{DrainTurn};
ghost use Rattle.timers.specs.ServerTimes.{at_look, begun, beat_after, beats, due_after, due_of, looked_after, looks, of_leader, of_term, once, sights, times_after, too_long, turned, watches_on};

use crate::due::{Due, Looked, Seen};
use crate::election::Election;
use crate::period::Period;
use crate::settings::Settings;
use crate::watch::{Sighting, Watched, is_long, watch_all};
use rows::{Index, NoMemory, NodeId, Term};
use std::alloc::Global;
use std::marker::Model;

/// The timers of a server. Contracts see the settings and how long each has waited.
#[derive(Drop)]
pub struct ServerTimers {
    settings: Settings,
    election: Election,
    beat: Period,
    beaten: Index,
    compact: Period,
    take: Period,
    plan: Period,
    free: Period,
    reap: Period,
    looked: u32,
    term: Term,
    nodes: Vec<Watched>,
    deliveries: Vec<Watched>,
}

impl Model for ServerTimers {
    ghost use Rattle.timers.specs.ServerTimes.{ServerTimes};

    ghost Value = { ServerTimes };

    ghost view = { λ t. record {
      settings = t.settings;
      election = t.election;
      beat = t.beat;
      beaten = t.beaten;
      compact = t.compact;
      take = t.take;
      plan = t.plan;
      free = t.free;
      reap = t.reap;
      looked = t.looked;
      term = t.term;
      nodes = t.nodes.items;
      deliveries = t.deliveries.items;
    } };
}

/// What was seen in this term.
fn of_term(term: Term, its: Term, before: &[Watched]) -> &[Watched]
    ensures { result.now ≡ of_term term its before.now }
{
    if its.get() == term.get() {
        before
    } else {
        &before[..0]
    }
}

/// How long ago they looked, where they do not look once so many more milliseconds have passed.
fn since_look(looked: u32, ms: u32, look: u32) -> Option<u32>
    ensures { MatchOption result (nat_le look (looked + ms) ≡ true)
        (λ since. (since ≡ looked + ms) × (nat_le look (looked + ms) ≡ false)) }
{
    let total = u64::from(looked) + u64::from(ms);
    if total < u64::from(look) {
        Some(total as u32)
    } else {
        None
    }
}

/// Puts it to the end, if so.
fn put_once(so: bool, what: Due, due: &mut Vec<Due>) -> Result<(), NoMemory>
    ensures { OnOk result (due.new.items ≡ due.old.items ++ once so what) }
{
    if so {
        due.push(what)?;
    }
    Ok(())
}

/// What becomes due of what is seen.
fn due_of(what: Sighting) -> Due
    ensures { result ≡ due_of what }
{
    match what {
        Sighting::Node(node, beats) => Due::Expire(node, beats),
        Sighting::Delivery(eval, _) => Due::Lapse(eval),
    }
}

/// Puts what was seen for too long to the end.
fn put_too_long(
    before: &[Watched],
    seen: &[Sighting],
    grace: u32,
    ms: u64,
    due: &mut Vec<Due>,
) -> Result<(), NoMemory>
    requires { ms < 2 ^ 34 }
    ensures { OnOk result
        (due.new.items ≡ due.old.items ++ too_long grace ms before.now seen.now) }
{
    for what in seen {
        if is_long(before, what, grace, ms) {
            due.push(due_of(*what))?;
        }
    }
    Ok(())
}

/// Puts a turn of each drained node to the end.
fn put_drains(drained: &[NodeId], due: &mut Vec<Due>) -> Result<(), NoMemory>
    ensures { OnOk result (due.new.items ≡ due.old.items ++ map DrainTurn drained.now) }
{
    for node in drained {
        due.push(Due::DrainTurn(*node))?;
    }
    Ok(())
}

/// What is watched from now on; nothing, where it does not lead.
fn watched_on(
    alloc: Global,
    before: &[Watched],
    seen: &[Sighting],
    grace: u32,
    ms: u64,
    leads: bool,
) -> Result<Vec<Watched>, NoMemory>
    requires { ms < 2 ^ 34 }
    ensures { IfOk result (λ now.
        now.items ≡ watches_on grace ms before.now seen.now leads) }
{
    if leads {
        watch_all(alloc, before, seen, grace, ms)
    } else {
        Ok(Vec::new(alloc))
    }
}

impl ServerTimers {
    /// The timers of a server that starts. Its waits are drawn by the seed: give each server
    /// another, and each start of it.
    pub fn new(alloc: Global, seed: u64, settings: Settings) -> ServerTimers
        ensures { result ≡ begun settings seed }
    {
        ServerTimers {
            election: Election::new(seed, &settings),
            beat: Period::new(settings.beat),
            beaten: Index::ZERO,
            compact: Period::new(settings.compact),
            take: Period::new(settings.take),
            plan: Period::new(settings.plan),
            free: Period::new(settings.free),
            reap: Period::new(settings.reap),
            looked: 0,
            term: Term::ZERO,
            nodes: Vec::new(alloc),
            deliveries: Vec::new(alloc),
            settings,
        }
    }

    /// It heard of a leader, or gave its vote: another wait begins. (Raft, extended version 2014,
    /// section 5.2.)
    pub fn heard(&mut self)
        ensures { self.new ≡ record self.old { election = waits_anew self.old.election } }
    {
        self.election.restart();
    }

    /// Whether they look once so many milliseconds have passed.
    pub fn looks(&self, ms: u32) -> bool
        ensures { result ≡ looks ms self.now }
    {
        u64::from(self.looked) + u64::from(ms) >= u64::from(self.settings.look)
    }

    /// What a leader's desk is to do by what is seen, behind what is due.
    fn put_looked(
        &self,
        ms: u32,
        seen: &Seen,
        looked: &Looked<'_>,
        due: &mut Vec<Due>,
    ) -> Result<(), NoMemory>
        ensures { OnOk result (due.new.items ≡ due.old.items
            ++ at_look ms self.now seen.now (sights looked.now)) }
    {
        let since = u64::from(self.looked) + u64::from(ms);
        let before = of_term(seen.term, self.term, self.deliveries.as_slice());
        put_too_long(before, looked.deliveries, self.settings.lapse, since, due)?;
        let before = of_term(seen.term, self.term, self.nodes.as_slice());
        put_too_long(before, looked.nodes, self.settings.expire, since, due)?;
        put_drains(looked.drained, due)
    }

    /// What a leader's desk is to do, behind what is due.
    fn put_of_leader(
        &self,
        ms: u32,
        seen: &Seen,
        looked: &Looked<'_>,
        due: &mut Vec<Due>,
    ) -> Result<(), NoMemory>
        ensures { OnOk result (due.new.items ≡ due.old.items
            ++ of_leader ms self.now seen.now (sights looked.now)) }
    {
        put_once(self.plan.is_due(ms), Due::PlanTurn, due)?;
        put_once(self.free.is_due(ms), Due::FreeTurn, due)?;
        put_once(self.reap.is_due(ms), Due::Reap, due)?;
        if self.looks(ms) {
            self.put_looked(ms, seen, looked, due)?;
        }
        Ok(())
    }

    /// What is due once so many milliseconds have passed.
    fn due_after(
        &self,
        alloc: Global,
        ms: u32,
        seen: &Seen,
        looked: &Looked<'_>,
    ) -> Result<Vec<Due>, NoMemory>
        ensures { IfOk result (λ due. due.items ≡ due_after ms self.now seen.now (sights looked.now)) }
    {
        let mut due = Vec::new(alloc);
        let out_of_wait = !seen.leads && self.election.is_over(ms);
        put_once(out_of_wait, Due::Timeout, &mut due)?;
        put_once(self.compact.is_due(ms), Due::Compact, &mut due)?;
        let idle = seen.idle && self.take.is_due(ms);
        put_once(idle, Due::Take, &mut due)?;
        if seen.leads {
            self.put_of_leader(ms, seen, looked, &mut due)?;
        }
        Ok(due)
    }

    /// They look.
    fn look(
        &mut self,
        alloc: Global,
        ms: u32,
        seen: &Seen,
        looked: &Looked<'_>,
    ) -> Result<(), NoMemory>
        ensures ok { OnOk result (self.new ≡ looked_after ms self.old seen.now (sights looked.now)) }
        ensures err { OnErr result (self.new ≡ self.old) }
    {
        let since = u64::from(self.looked) + u64::from(ms);
        let before = of_term(seen.term, self.term, self.nodes.as_slice());
        let grace = self.settings.expire;
        let nodes = watched_on(alloc, before, looked.nodes, grace, since, seen.leads)?;
        let before = of_term(seen.term, self.term, self.deliveries.as_slice());
        let grace = self.settings.lapse;
        let deliveries = watched_on(alloc, before, looked.deliveries, grace, since, seen.leads)?;
        self.looked = 0;
        self.term = seen.term;
        self.nodes = nodes;
        self.deliveries = deliveries;
        Ok(())
    }

    /// So many milliseconds pass for those that look at nothing.
    fn turn(&mut self, ms: u32, seen: &Seen)
        ensures { self.new ≡ turned ms seen.now self.old }
    {
        if seen.leads {
            self.election.restart();
        } else {
            self.election.pass(ms);
        }
        self.compact.pass(ms);
        self.take.pass(ms);
        self.plan.pass(ms);
        self.free.pass(ms);
        self.reap.pass(ms);
    }

    /// So many milliseconds pass. What is due, in order; a beat is asked for apart.
    ///
    /// What is seen of nodes and deliveries is read only of a leader, and where it `looks`.
    /// - `due`: just this is due.
    /// - `later`: what is left of each wait.
    /// - `err`: without memory nothing changes.
    pub fn pass(
        &mut self,
        alloc: Global,
        ms: u32,
        seen: &Seen,
        looked: &Looked<'_>,
    ) -> Result<Vec<Due>, NoMemory>
        ensures due { IfOk result (λ due.
            due.items ≡ due_after ms self.old seen.now (sights looked.now)) }
        ensures later { OnOk result (self.new ≡ times_after ms self.old seen.now (sights looked.now)) }
        ensures err { OnErr result (self.new ≡ self.old) }
    {
        let due = self.due_after(alloc, ms, seen, looked)?;
        match since_look(self.looked, ms, self.settings.look) {
            Some(since) => self.looked = since,
            None => self.look(alloc, ms, seen, looked)?,
        }
        self.turn(ms, seen);
        Ok(due)
    }

    /// Whether a server is to beat, where so many milliseconds have passed since this was last
    /// asked. It is asked behind all that an item of time made it do, so that what it proposed then
    /// leaves with it.
    pub fn beat(&mut self, ms: u32, leads: bool, last: Index, applied: Index) -> bool
        ensures due { result ≡ beats ms self.old leads last applied }
        ensures later { self.new ≡ beat_after ms self.old leads last applied }
    {
        let eager = self.beaten < last && self.beaten <= applied;
        let beats = leads && (self.beat.is_due(ms) || eager);
        self.beat.pass(ms);
        if beats {
            self.beaten = last;
        } else if !leads {
            self.beaten = Index::ZERO;
        }
        beats
    }
}
