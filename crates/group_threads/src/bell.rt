//! A bell by which threads sleep.
use std::sync::Wait;
use std::sync::atomic::{AtomicU64, Ordering};
use std::time::Duration;

/// A bell by which threads sleep until somebody rings. It counts its rings: a thread that asks for
/// the count, then looks for something to do, and then sleeps, misses none. It has no lock.
#[derive(Drop)]
pub(crate) struct Bell {
    // Threads sleep while the low half of this count is what they heard.
    rings: AtomicU64,
    // How many threads sleep, or are about to.
    sleepers: AtomicU64,
}

// The half of a count by which threads sleep.
fn low_half(count: u64) -> u32 {
    (count & 0xffff_ffff) as u32
}

impl Bell {
    /// A bell that was not rung yet.
    pub(crate) fn new() -> Bell {
        Bell {
            rings: AtomicU64::new(0),
            sleepers: AtomicU64::new(0),
        }
    }

    /// How often it was rung, modulo 2^64.
    pub(crate) fn rings(&self) -> u64 {
        self.rings.load(Ordering::SeqCst)
    }

    /// Counts a ring that wakes nobody: who is awake and asked for the count before does not sleep.
    pub(crate) fn count(&self) {
        self.rings.fetch_add(1, Ordering::SeqCst);
    }

    /// Wakes all that sleep by it.
    pub(crate) fn ring(&self) {
        self.count();
        if self.sleepers.load(Ordering::SeqCst) != 0 {
            self.rings.wake_all();
        }
    }

    /// Sleeps until it was rung again since it was rung so often.
    pub(crate) fn wait<R: Wait>(&self, rt: &R, heard: u64) {
        self.sleepers.fetch_add(1, Ordering::SeqCst);
        for _ in rt.forever() {
            if self.rings() != heard {
                break;
            }
            self.rings.park(rt, low_half(heard));
        }
        self.sleepers.fetch_sub(1, Ordering::SeqCst);
    }

    /// Sleeps once, at most so long: not where it was rung again since it was rung so often, and no
    /// longer than until it is. It may wake before.
    pub(crate) fn wait_once<R: Wait>(&self, rt: &R, heard: u64, most: Duration) {
        self.sleepers.fetch_add(1, Ordering::SeqCst);
        if self.rings() == heard {
            self.rings.park_timeout(rt, low_half(heard), most);
        }
        self.sleepers.fetch_sub(1, Ordering::SeqCst);
    }
}
