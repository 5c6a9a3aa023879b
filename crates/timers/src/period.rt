//! What comes every so many milliseconds.
ghost use Rattle.std.specs.Prelude.{◌≡◌};
ghost use Rattle.timers.specs.Periods.{is_due, later};

/// A turn that comes every so many milliseconds, of which so many have passed since it last did.
#[derive(Clone, Copy, Debug)]
pub(crate) struct Period {
    pub(crate) every: u32,
    pub(crate) passed: u32,
}

impl Period {
    /// None have passed.
    pub fn new(every: u32) -> Period
        ensures { result ≡ record { every = every; passed = 0 } }
    {
        Period { every, passed: 0 }
    }

    /// Whether it comes once so many more have passed.
    pub fn is_due(&self, ms: u32) -> bool
        ensures { result ≡ is_due ms self.now }
    {
        u64::from(self.passed) + u64::from(ms) >= u64::from(self.every)
    }

    /// So many more pass.
    pub fn pass(&mut self, ms: u32)
        ensures { self.new ≡ later ms self.old }
    {
        let total = u64::from(self.passed) + u64::from(ms);
        let every = u64::from(self.every);
        if total < every {
            self.passed = total as u32;
        } else if every == 0 {
            self.passed = 0;
        } else {
            self.passed = (total % every) as u32;
        }
    }
}
