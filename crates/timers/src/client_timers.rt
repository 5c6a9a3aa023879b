//! What a client does by itself.
ghost use Rattle.std.specs.Prelude.{◌≡◌, ◌++◌, IfOk, OnErr, OnOk};
ghost use Rattle.timers.specs.ClientTimes.{client_begun, client_due, client_after, once};

use crate::period::Period;
use crate::settings::ClientSettings;
use rows::NoMemory;
use std::alloc::Global;
use std::marker::Model;

/// What a client is to ask of a server.
#[derive(Clone, Copy, Debug, PartialEq, Eq)]
pub enum ClientDue {
    /// That its node be registered.
    Register,
    /// That a heartbeat be counted.
    Ping,
    /// What it is to run.
    Pull,
}

/// The timers of a client. Contracts see how long each has waited.
#[derive(Drop)]
pub struct ClientTimers {
    register: Period,
    ping: Period,
    pull: Period,
}

impl Model for ClientTimers {
    ghost use Rattle.timers.specs.ClientTimes.{ClientTimes};

    ghost Value = { ClientTimes };

    ghost view = { λ t. record { register = t.register; ping = t.ping; pull = t.pull } };
}

/// Puts it to the end, if so.
fn put_once(so: bool, what: ClientDue, due: &mut Vec<ClientDue>) -> Result<(), NoMemory>
    ensures { OnOk result (due.new.items ≡ due.old.items ++ once so what) }
{
    if so {
        due.push(what)?;
    }
    Ok(())
}

impl ClientTimers {
    /// The timers of a client that starts.
    pub fn new(settings: ClientSettings) -> ClientTimers
        ensures { result ≡ client_begun settings }
    {
        ClientTimers {
            register: Period::new(settings.register),
            ping: Period::new(settings.ping),
            pull: Period::new(settings.pull),
        }
    }

    /// So many milliseconds pass. What is due, in order.
    /// - `due`: just this is due.
    /// - `later`: what is left of each wait.
    /// - `err`: without memory nothing changes.
    pub fn pass(&mut self, alloc: Global, ms: u32) -> Result<Vec<ClientDue>, NoMemory>
        ensures due { IfOk result (λ due. due.items ≡ client_due ms self.old) }
        ensures later { OnOk result (self.new ≡ client_after ms self.old) }
        ensures err { OnErr result (self.new ≡ self.old) }
    {
        let mut due = Vec::new(alloc);
        put_once(self.register.is_due(ms), ClientDue::Register, &mut due)?;
        put_once(self.ping.is_due(ms), ClientDue::Ping, &mut due)?;
        put_once(self.pull.is_due(ms), ClientDue::Pull, &mut due)?;
        self.register.pass(ms);
        self.ping.pass(ms);
        self.pull.pass(ms);
        Ok(due)
    }
}
