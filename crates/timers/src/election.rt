//! How long a server waits to hear of a leader.
ghost use Rattle.std.specs.Prelude.{◌≡◌};
ghost use Rattle.timers.specs.Waits.{Waiting, first_wait, is_over, waited, waits_anew, wait_of};

use crate::settings::Settings;
use lossy_net::Fates;
use std::marker::Model;

/// A wait that is drawn anew each time it begins. Contracts see the key by which waits are drawn,
/// how many were, the one that runs, and how much of it has passed.
#[derive(Drop)]
pub(crate) struct Election {
    least: u16,
    more: u16,
    words: Fates,
    wait: u32,
    passed: u32,
}

impl Model for Election {
    ghost use Rattle.timers.specs.Waits.{Waiting};

    ghost Value = { Waiting };

    ghost view = { λ e. record {
      least = e.least;
      more = e.more;
      seed = e.words.key;
      drawn = e.words.drawn;
      wait = e.wait;
      passed = e.passed;
    } };
}

/// The wait that a word gives.
fn wait_of(least: u16, more: u16, word: u32) -> u32
    ensures { result ≡ wait_of least more word }
{
    u32::from(least) + word % (u32::from(more) + 1)
}

impl Election {
    /// The first wait of a seed begins.
    pub fn new(seed: u64, settings: &Settings) -> Election
        ensures { result ≡ first_wait settings.now seed }
    {
        let mut words = Fates::new(seed);
        let word = words.next();
        Election {
            least: settings.least_wait,
            more: settings.more_wait,
            words,
            wait: wait_of(settings.least_wait, settings.more_wait, word),
            passed: 0,
        }
    }

    /// Another wait begins.
    pub fn restart(&mut self)
        ensures { self.new ≡ waits_anew self.old }
    {
        let word = self.words.next();
        self.wait = wait_of(self.least, self.more, word);
        self.passed = 0;
    }

    /// Whether the wait is over once so many more milliseconds have passed.
    pub fn is_over(&self, ms: u32) -> bool
        ensures { result ≡ is_over ms self.now }
    {
        u64::from(self.passed) + u64::from(ms) >= u64::from(self.wait)
    }

    /// So many more pass. Where the wait is over another begins.
    pub fn pass(&mut self, ms: u32)
        ensures { self.new ≡ waited ms self.old }
    {
        let total = u64::from(self.passed) + u64::from(ms);
        if total < u64::from(self.wait) {
            self.passed = total as u32;
        } else {
            self.restart();
        }
    }
}
