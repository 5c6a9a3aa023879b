//! What is to be played under which keys.
ghost use Rattle.std.specs.Prelude.{◌≡◌};
ghost use Rattle.sim_sweep.specs.Rows.{key_at};

use sim_scenario::scenario::{Scenario, Settings};

/// One scenario, and the keys under which it is played.
#[derive(Clone, Copy)]
pub struct Task<'s> {
    /// The scenario, whose nodes and steps are played.
    pub scenario: &'s Scenario,
    /// Its settings, but for the key, and for what is said beside it of lost and of repeated
    /// messages.
    pub settings: Settings,
    /// The first key.
    pub first: u64,
    /// How many keys there are; behind the greatest comes 0.
    pub count: u32,
}

impl Task<'_> {
    /// The key at a position, the first being at 0.
    pub fn key(&self, position: u32) -> u64
        ensures { result ≡ key_at self.now.first position }
    {
        self.first.wrapping_add(u64::from(position))
    }
}
