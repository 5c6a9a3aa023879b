//! How full the nodes are, and which is the best for one more allocation.
ghost use Rattle.std.specs.Prelude.{◌≡◌, ◌≤◌, false, true, map, option_map};
ghost use Rattle.std.specs.Prelude.{IfOk, IfNone, IfSome};
ghost use Rattle.rows.specs.Fits.{SizeFits};
ghost use Rattle.rows.specs.Sizes.{plus, fits};
ghost use Rattle.fsm_tables.specs.Claims.{claims};
ghost use Rattle.group_model.specs.Scheduling.{fullness};
ghost use Rattle.scheduler.specs.Inner.Loads.{load_of, load_less, with_load, takes_one_of, fullness_on, IsBestOf};

use fsm_state::{Cluster, may_hold};
use rows::{AcceptedPlace, Allocation, Group, NoMemory, Node, Size, Usage};
use std::alloc::Global;

/// A node, and what is in use of it.
#[derive(Clone, Copy)]
pub(crate) struct Load {
    /// The node's row.
    pub node: Node,
    /// What is in use of it.
    pub used: Usage,
}

/// What is in use of each node of a state, in rising number.
pub(crate) fn loads_of(alloc: Global, state: &Cluster) -> Result<Vec<Load>, NoMemory>
    ensures { let load = load_of (claims state.now.allocs) in
        IfOk result (λ loads. loads.items ≡ map load state.now.nodes) }
{
    let mut loads = Vec::new(alloc);
    for node in state.node_table().rows() {
        loads.push(Load {
            node: *node,
            used: state.used(node.number),
        })?;
    }
    Ok(loads)
}

/// What is in use of a node with some more; none where that is past the node's size.
fn filled(used: Usage, more: Size, size: Size) -> Option<Usage>
    ensures some { IfSome result (λ u. (u ≡ plus used more) × (fits (plus used more) size ≡ true)
        × SizeFits size) }
    ensures none { IfNone result (fits (plus used more) size ≡ false) }
{
    let more = Usage::of(more);
    let room = Usage::of(size);
    if Usage::is_enough(room, used, more, Usage::NONE) {
        Some(used.add(more))
    } else {
        None
    }
}

/// How full a node of a size is with so much of it in use, in thousandths of its processor time and
/// of its memory together.
fn fullness(used: Usage, size: &Size) -> u64
    requires { (used.cpu ≤ 1000000) × (used.mem ≤ 1000000) }
    ensures { result ≡ fullness used size.now }
{
    1000 * used.cpu() / size.cpu.get() as u64 + 1000 * used.mem() / size.mem.get() as u64
}

impl Load {
    /// What is in use without what an allocation takes, if there is one.
    fn less(&self, row: Option<&Allocation>) -> Load
        ensures { result ≡ load_less (option_map (λ r. r.now) row.entry) self.now }
    {
        match row {
            Some(row) if row.node == self.node.number => Load {
                node: self.node,
                used: self.used.take(Usage::of(row.size)),
            },
            _ => *self,
        }
    }

    /// What is in use with what a place takes.
    fn more(&self, place: &AcceptedPlace) -> Load
        ensures { result ≡ with_load place.now self.now }
    {
        if place.node == self.node.number {
            Load {
                node: self.node,
                used: self.used.saturating_add(Usage::of(place.size)),
            }
        } else {
            *self
        }
    }

    /// How full the node is with one more of a group; none where it does not take it.
    fn fullness_with(&self, group: &Group) -> Option<u64>
        ensures some { IfSome result (λ n. (takes_one_of group.now self.now ≡ true)
            × (n ≡ fullness_on group.now self.now)) }
        ensures none { IfNone result (takes_one_of group.now self.now ≡ false) }
    {
        if !may_hold(group, &self.node) {
            return None;
        }
        match filled(self.used, group.size, self.node.size) {
            None => None,
            Some(used) => Some(fullness(used, &self.node.size)),
        }
    }
}

/// How full a node is with one more of a group, once an allocation is gone; none where it does not
/// take it.
fn fullness_without(load: &Load, gone: Option<&Allocation>, group: &Group) -> Option<u64>
    ensures some { let l = load_less (option_map (λ r. r.now) gone.entry) load.now in
        IfSome result (λ n. (takes_one_of group.now l ≡ true) × (n ≡ fullness_on group.now l)) }
    ensures none { let l = load_less (option_map (λ r. r.now) gone.entry) load.now in
        IfNone result (takes_one_of group.now l ≡ false) }
{
    load.less(gone).fullness_with(group)
}

/// The place in the list of the fullest node that takes one more of a group, and of two as full the
/// first, once an allocation is gone.
pub(crate) fn best(loads: &[Load], group: &Group, gone: Option<&Allocation>) -> Option<usize>
    ensures { let row = option_map (λ r. r.now) gone.entry in
        IsBestOf (load_less row) group.now loads.now result }
{
    let mut is_found = false;
    let mut best = 0;
    let mut most = 0;
    for at in 0..loads.len() {
        let Some(fullness) = fullness_without(&loads[at], gone, group) else {
            continue;
        };
        if is_found && fullness <= most {
            continue;
        }
        is_found = true;
        best = at;
        most = fullness;
    }
    if is_found { Some(best) } else { None }
}

/// Takes off what an allocation takes, if there is one.
pub(crate) fn take_off(loads: &mut [Load], row: Option<&Allocation>)
    ensures { loads.new ≡ map (load_less (option_map (λ r. r.now) row.entry)) loads.old }
{
    for load in loads.iter_mut() {
        *load = load.less(row);
    }
}

/// Puts on what a place takes.
pub(crate) fn put_on(loads: &mut [Load], place: &AcceptedPlace)
    ensures { loads.new ≡ map (with_load place.now) loads.old }
{
    for load in loads.iter_mut() {
        *load = load.more(place);
    }
}
