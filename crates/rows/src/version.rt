ghost use Rattle.std.specs.Prelude.{◌≡◌, ◌<◌, ◌≤◌, IfSome, IfNone};
ghost use Rattle.rows.specs.Versions.{newest};

use std::marker::Model;

/// A version of texts, from 1 to the newest: the state, its rows and the commands have a format in
/// each version. Contracts see its number.
#[derive(Clone, Copy, Debug, PartialEq, Eq, PartialOrd, Ord)]
pub struct Version(u8);

impl Model for Version {
    ghost use Rattle.std.specs.Prelude.{ℕ, ◌≤◌};
    ghost use Rattle.rows.specs.Versions.{newest};

    ghost Value = { ℕ };

    ghost view = { λ v. v.0 };

    ghost invariant = { λ v. (1 ≤ v.0) × (v.0 ≤ newest) };

    ghost inverse = { λ v. record { 0 = v } };
}

impl Version {
    /// The number of the newest.
    const MOST: u8 = 3;

    /// The newest, which alone is written, and which every frame has.
    pub fn newest() -> Version
        ensures { result ≡ newest }
    {
        Version(Version::MOST)
    }

    /// The version of a number; none where there is no such version.
    pub fn new(number: u8) -> Option<Version>
        ensures some { IfSome result (λ v. (v ≡ number) × (1 ≤ number) × (number ≤ newest)) }
        ensures none { IfNone result ((1 ≤ number) → newest < number) }
    {
        if number >= 1 && number <= Version::MOST {
            Some(Version(number))
        } else {
            None
        }
    }

    /// Its number.
    pub fn number(self) -> u8
        ensures value { result ≡ self }
        ensures range { (1 ≤ result) × (result ≤ newest) }
    {
        self.0
    }
}
