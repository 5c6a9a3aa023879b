ghost use Rattle.std.specs.Prelude.{◌≡◌, ◌<◌, ◌≤◌, IfSome, IfNone, IfOk, IfErr};
ghost use Rattle.rows.specs.Fits.{QuantityFits, SpaceFits, SizeFits};
ghost use Rattle.rows.specs.declared.refusal.Refusal.TheVariants as refusals;

use crate::list_rules::Ranged;
use crate::refusal::Refusal;
use std::marker::Model;

/// How much of one resource, from 1 to 1,000,000. Contracts see its number.
#[derive(Clone, Copy, Debug, PartialEq, Eq, PartialOrd, Ord)]
pub struct Quantity(u32);

impl Model for Quantity {
    ghost use Rattle.std.specs.Prelude.{ℕ, ◌≤◌};

    ghost Value = { ℕ };

    ghost view = { λ n. n.0 };

    ghost invariant = { λ n. (1 ≤ n.0) × (n.0 ≤ 1000000) };

    ghost inverse = { λ n. record { 0 = n } };
}

impl Quantity {
    /// The greatest: 1,000,000.
    pub const MOST: u32 = 1_000_000;

    /// The quantity of a number; none where the number is not from 1 to 1,000,000.
    pub fn new(number: u32) -> Option<Quantity>
        ensures some { IfSome result (λ n. (n ≡ number) × (1 ≤ number) × (number ≤ 1000000)) }
        ensures none { IfNone result ((1 ≤ number) → 1000000 < number) }
    {
        if number >= 1 && number <= Quantity::MOST {
            Some(Quantity(number))
        } else {
            None
        }
    }

    /// Its number, from 1 to 1,000,000.
    pub fn get(self) -> u32
        ensures value { result ≡ self }
        ensures range { (1 ≤ result) × (result ≤ 1000000) }
    {
        self.0
    }
}

/// How much disk, from 0 to 1,000,000. Contracts see its number.
#[derive(Clone, Copy, Debug, PartialEq, Eq, PartialOrd, Ord)]
pub struct Space(u32);

impl Model for Space {
    ghost use Rattle.std.specs.Prelude.{ℕ, ◌≤◌};

    ghost Value = { ℕ };

    ghost view = { λ n. n.0 };

    ghost invariant = { λ n. n.0 ≤ 1000000 };

    ghost inverse = { λ n. record { 0 = n } };
}

impl Space {
    /// None.
    pub const NONE: Space = Space(0);

    /// The greatest: 1,000,000.
    pub const MOST: u32 = 1_000_000;

    /// The space of a number; none where the number is more than `MOST`.
    pub fn new(number: u32) -> Option<Space>
        ensures some { IfSome result (λ n. (n ≡ number) × (number ≤ 1000000)) }
        ensures none { IfNone result (1000000 < number) }
    {
        if number <= Space::MOST {
            Some(Space(number))
        } else {
            None
        }
    }

    /// Its number, at most 1,000,000.
    pub fn get(self) -> u32
        ensures value { result ≡ self }
        ensures limit { result ≤ 1000000 }
    {
        self.0
    }
}

/// What a node has, or an allocation takes: processor time in MHz, memory in MB and disk in MB.
/// (Nomad documentation, "resources block".)
#[derive(Clone, Copy, Debug, PartialEq, Eq)]
pub struct Size {
    /// Processor time, in MHz.
    pub cpu: Quantity,
    /// Memory, in MB.
    pub mem: Quantity,
    /// Disk, in MB.
    pub disk: Space,
}

impl Size {
    /// The size of three numbers. `OutOfRange` where `cpu` or `mem` is not from 1 to 1,000,000, or
    /// `disk` is more than that.
    pub fn check(cpu: u32, mem: u32, disk: u32) -> Result<Size, Refusal>
        ensures ok { IfOk result (λ size. (size.cpu ≡ cpu) × (size.mem ≡ mem) × (size.disk ≡ disk)
            × SizeFits size) }
        ensures err { IfErr result (λ e. (e ≡ refusals.OutOfRange)
            × (QuantityFits cpu → QuantityFits mem → SpaceFits disk → ⊥)) }
    {
        match (Quantity::new(cpu), Quantity::new(mem), Space::new(disk)) {
            (Some(cpu), Some(mem), Some(disk)) => Ok(Size { cpu, mem, disk }),
            _ => Err(Refusal::OutOfRange),
        }
    }
}

impl Ranged for Size {
    ghost use Rattle.rows.specs.Fits.{SizeFits};

    ghost Fits = { SizeFits };

    fn ranges(&self) {
        let _cpu = self.cpu.get();
        let _mem = self.mem.get();
        let _disk = self.disk.get();
    }
}
