//! What the definitions say over many items of time.
ghost use Rattle.std.specs.Prelude.{◌≡◌, ◌≤◌, ℕ, List};
ghost use Rattle.timers.specs.declared.period.Period.{Period};
ghost use Rattle.timers.specs.declared.settings.Settings.{Settings};
ghost use Rattle.timers.specs.declared.watch.Sighting.{Sighting};
ghost use Rattle.timers.specs.Periods.{AreWithin, ComesAsOften, ComesNoOftener, IsRunning};
ghost use Rattle.timers.specs.Waits.{AreQuiet, EndsInTime, IsDrawnWithin, Waiting, first_wait, waits_anew};
ghost use Rattle.timers.specs.Watches.{IsSeenThatLong, Look};

/// What comes every so many milliseconds comes as often as that.
/// - `as_often`: as many times as whole periods pass, where no item of time is longer than one.
/// - `no_oftener`: never more often.
pub fn turns_come_as_often()
    ensures as_often { (p : Period) (items : List ℕ) → IsRunning p → AreWithin p.every items →
        ComesAsOften p items }
    ensures no_oftener { (p : Period) (items : List ℕ) → ComesNoOftener p items }
{}

/// A wait for a leader ends once as much time has passed as was drawn, and no earlier.
/// - `in_time`: where nothing is heard between the items, the next one ends the wait exactly if so
///   much has passed.
/// - `first`, `next`: what is drawn is within the settings.
pub fn timeouts_come_after_their_waits()
    ensures in_time { (w : Waiting) (items : List ℕ) (ms : ℕ) → AreQuiet w items →
        EndsInTime w items ms }
    ensures first { (s : Settings) (seed : ℕ) → IsDrawnWithin (first_wait s seed) }
    ensures next { (w : Waiting) → IsDrawnWithin (waits_anew w) }
{}

/// What expires or lapses was seen without a break for as long as the settings say: a node with just
/// as many heartbeats, a delivery under the same token.
pub fn beats_are_heard_before_an_expiry()
    ensures { (grace : ℕ) (look : Look) (older : List Look) (what : Sighting) →
        IsSeenThatLong grace look older what }
{}
