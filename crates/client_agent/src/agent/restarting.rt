//! An agent that starts with what it stored.
ghost use Rattle.std.specs.Prelude.{◌≡◌, ◌⊎◌, IfErr, IfOk, OnOk};
ghost use Rattle.rows.specs.declared.refusal.Refusal.TheVariants as refusals;
ghost use Rattle.rows.specs.GroupSizes.{IsGroup};
ghost use Rattle.group_model.specs.Agents.{agent_of};
ghost use Rattle.client_agent.specs.Capacity.{AreDistinct};

use super::Agent;
use crate::life::Life;
use crate::started::Started;
use rows::{AllocId, NodeSpec, Refusal, is_group_size};
use std::alloc::Global;

impl Agent {
    /// The client of this node that ever started just these allocations, in this order, in a group
    /// of `n` servers: up, and nothing runs. So a process starts again by what it stored.
    ///
    /// It is refused with `OutOfRange` where `n` is not 3 or 5 or an id stands there twice, and with
    /// `NoMemory`.
    pub fn restart(
        alloc: Global,
        node: NodeSpec,
        n: usize,
        started: &[AllocId],
    ) -> Result<Agent, Refusal>
        ensures ok { IfOk result (λ a. a ≡ record {
          size = n;
          client = record (agent_of node) { started = started.now };
        }) }
        ensures lawful { OnOk result (IsGroup n × AreDistinct started.now) }
        ensures err { IfErr result (λ cause. (cause ≡ refusals.NoMemory)
            ⊎ ((cause ≡ refusals.OutOfRange) × (IsGroup n → AreDistinct started.now → ⊥))) }
    {
        if !is_group_size(n) {
            return Err(Refusal::OutOfRange);
        }
        let started = match Started::of(alloc, started) {
            Ok(started) => started,
            Err(cause) => return Err(cause),
        };
        Ok(Agent {
            alloc,
            node,
            size: n,
            started,
            life: Some(Life::new(alloc)),
        })
    }
}
