//! Where the steps of a scenario are taken.
ghost use Rattle.std.specs.Prelude.{◌≢◌, IfErr, OnOk};
ghost use Rattle.rows.specs.declared.refusal.Refusal.TheVariants as refusals;
ghost use Rattle.sim_scenario.specs.Steps.{played_step};

use rows::Refusal;
use sim_scenario::step::Step;

/// Where the steps of a scenario are taken: a group whose events come one at a time, or one that
/// runs on threads.
pub trait Stage {
    ghost use Rattle.rows.specs.declared.refusal.Refusal.{Refusal};
    ghost use Rattle.sim_scenario.specs.Steps.{Step};

    // What a step that is taken does.
    ghost Takes: { Step → Self → Self → Type 0 };

    // What one that is refused does.
    ghost Refuses: { Step → Self → Refusal → Self → Type 0 };

    /// Takes a step, or says why it is refused. Want of memory is no refusal of it.
    fn take(&mut self, step: Step) -> Result<(), Refusal>
        ensures taken { OnOk result (Takes (played_step step) self.old self.new) }
        ensures refused { IfErr result (λ refusal. refusal ≢ refusals.NoMemory
            → Refuses (played_step step) self.old refusal self.new) };
}
