ghost use Rattle.std.specs.Prelude.{◌≡◌, ◌<◌, ◌+◌, ◌^◌, nat_le};
ghost use Rattle.rows.specs.Fits.{SizeFits};
ghost use Rattle.rows.specs.Sizes.{Part, amount, plus, plus_within, less, fits};

use crate::size::Size;
use std::marker::Model;

/// So much processor time, in MHz, and memory and disk, in MB: what some values take together, or
/// what is left of a size. Contracts see a `Size`, whose parts may be 0, and are below 2^64.
#[derive(Clone, Copy, Debug, PartialEq, Eq)]
pub struct Usage {
    cpu: u64,
    mem: u64,
    disk: u64,
}

impl Model for Usage {
    ghost use Rattle.rows.specs.declared.size.Size.{Size};

    ghost Value = { Size };

    ghost view = { λ u. record { cpu = u.cpu; mem = u.mem; disk = u.disk } };

    ghost inverse = { λ z. record { cpu = z.cpu; mem = z.mem; disk = z.disk } };
}

impl Usage {
    /// Nothing.
    pub const NONE: Usage = Usage {
        cpu: 0,
        mem: 0,
        disk: 0,
    };

    /// What a size says.
    pub fn of(size: Size) -> Usage
        ensures value { result ≡ size }
        ensures range { SizeFits result }
    {
        Usage {
            cpu: size.cpu.get() as u64,
            mem: size.mem.get() as u64,
            disk: size.disk.get() as u64,
        }
    }

    /// Its processor time, in MHz.
    pub fn cpu(self) -> u64
        ensures { result ≡ self.cpu }
    {
        self.cpu
    }

    /// Its memory, in MB.
    pub fn mem(self) -> u64
        ensures { result ≡ self.mem }
    {
        self.mem
    }

    /// Its disk, in MB.
    pub fn disk(self) -> u64
        ensures { result ≡ self.disk }
    {
        self.disk
    }

    /// With some more.
    pub fn add(self, more: Usage) -> Usage
        requires { (p : Part) → amount p self + amount p more < 2 ^ 64 }
        ensures { result ≡ plus self more }
    {
        Usage {
            cpu: self.cpu + more.cpu,
            mem: self.mem + more.mem,
            disk: self.disk + more.disk,
        }
    }

    /// With some more, as far as the numbers go.
    pub fn saturating_add(self, more: Usage) -> Usage
        ensures { result ≡ plus_within self more }
    {
        Usage {
            cpu: self.cpu.saturating_add(more.cpu),
            mem: self.mem.saturating_add(more.mem),
            disk: self.disk.saturating_add(more.disk),
        }
    }

    /// What is left of it once so much is taken; 0 of a part that has no more.
    pub fn take(self, part: Usage) -> Usage
        ensures { result ≡ less self part }
    {
        Usage {
            cpu: self.cpu.saturating_sub(part.cpu),
            mem: self.mem.saturating_sub(part.mem),
            disk: self.disk.saturating_sub(part.disk),
        }
    }

    /// Whether it is within a room.
    pub fn is_within(self, room: Usage) -> bool
        ensures { result ≡ fits self room }
    {
        self.cpu <= room.cpu && self.mem <= room.mem && self.disk <= room.disk
    }

    /// Whether a room bears what is used of it and some more, once some is given back.
    pub fn is_enough(room: Usage, used: Usage, more: Usage, less: Usage) -> bool
        ensures { result ≡ fits (plus used more) (plus room less) }
    {
        is_part_enough(room.cpu, used.cpu, more.cpu, less.cpu)
            && is_part_enough(room.mem, used.mem, more.mem, less.mem)
            && is_part_enough(room.disk, used.disk, more.disk, less.disk)
    }
}

/// The same of one part. The sums are of numbers that hold any two of them.
fn is_part_enough(room: u64, used: u64, more: u64, less: u64) -> bool
    ensures { result ≡ nat_le (used + more) (room + less) }
{
    used as u128 + more as u128 <= room as u128 + less as u128
}
