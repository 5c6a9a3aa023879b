//! The places of a plan on one node, each with its group's size.
ghost use Rattle.std.specs.Prelude.{◌≡◌, ◌&&◌, IfOk, find, option_map};
ghost use Rattle.group_model.specs.Acceptance.{is_group_of, sized_on, on};
ghost use Rattle.plan_apply.specs.Inner.Overlay.{all_sized};

use fsm_state::may_hold;
use rows::{AcceptedPlace, Group, Job, NoMemory, Node, NodeId, Place, Sequence};
use std::alloc::Global;

/// The places on a node.
pub(crate) fn places_on(
    alloc: Global,
    node: NodeId,
    places: &[Place],
) -> Result<Sequence<Place>, NoMemory>
    ensures { IfOk result (λ ks. ks ≡ on node places.now) }
{
    let mut on = Sequence::new(alloc);
    for place in places {
        if place.node == node {
            on.push(*place)?;
        }
    }
    Ok(on)
}

/// Whether the group is the place's, asks for so many, and is one that the node takes.
fn is_group_of(node: &Node, place: &Place, group: &Group) -> bool
    ensures { result ≡ is_group_of node.now place.now group.now }
{
    group.name == place.group && place.index.get() < group.count.get() && may_hold(group, node)
}

/// The group of a place, if the node takes it.
fn group_on<'a>(groups: &'a [Group], node: &Node, place: &Place) -> Option<&'a Group>
    ensures { let found = find (is_group_of node.now place.now) groups.now in
        option_map (λ group. group.now) result ≡ found }
{
    for group in groups {
        if is_group_of(node, place, group) {
            return Some(group);
        }
    }
    None
}

/// The place with its group's size, where the job has the group and the node takes it.
fn sized_on(job: &Job, node: &Node, place: &Place) -> Option<AcceptedPlace>
    ensures { result ≡ sized_on job.now node.now place.now }
{
    match group_on(job.groups.as_slice(), node, place) {
        Some(group) => Some(AcceptedPlace {
            group: place.group,
            index: place.index,
            node: place.node,
            size: group.size,
        }),
        None => None,
    }
}

/// The places with their groups' sizes, where the node takes each of them.
pub(crate) fn all_sized(
    alloc: Global,
    job: &Job,
    node: &Node,
    places: &[Place],
) -> Result<Option<Sequence<AcceptedPlace>>, NoMemory>
    ensures { IfOk result (λ sized. sized ≡ all_sized job.now node.now places.now) }
{
    let mut sized = Sequence::new(alloc);
    for place in places {
        match sized_on(job, node, place) {
            Some(place) => sized.push(place)?,
            None => return Ok(None),
        }
    }
    Ok(Some(sized))
}
