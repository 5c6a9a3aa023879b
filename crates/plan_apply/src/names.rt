//! Whether the names of places are their own: each has one holder once the plan is done.
ghost use Rattle.std.specs.Prelude.{◌≡◌, ◌≤◌, ◌++◌, filter, length, map};
ghost use Rattle.std.specs.List.{list_any, list_all};
ghost use Rattle.rows.specs.Keys.{alloc_id};
ghost use Rattle.group_model.specs.Acceptance.{claim_at, place_claims, is_held_once, claimed};
ghost use Rattle.plan_apply.specs.Inner.Names.{same_place, is_single, place_name, keeps_name};
ghost use Rattle.plan_apply.specs.Inner.Overlay.{kept_so_far};

use crate::accepted::Kept;
use crate::stops::has_row;
use fsm_state::Cluster;
use fsm_tables::{AllocName, Table, is_live};
use rows::{AcceptedPlace, Allocation, JobName};

/// Whether two places of a job are of one name.
fn is_same_place(place: &AcceptedPlace, other: &AcceptedPlace) -> bool
    ensures { result ≡ same_place place.now other.now }
{
    place.group == other.group && place.index == other.index
}

/// How many of the places are of the place's name.
fn count_same(place: &AcceptedPlace, places: &[AcceptedPlace]) -> usize
    ensures { result ≡ length (filter (same_place place.now) places.now) }
{
    let mut count = 0;
    for other in places {
        if is_same_place(place, other) {
            count += 1;
        }
    }
    count
}

/// The name that a place takes.
fn name_of(job: &JobName, place: &AcceptedPlace) -> AllocName
    ensures { result ≡ place_name job.now place.now }
{
    AllocName {
        job: *job,
        group: place.group,
        index: place.index,
    }
}

/// Whether a row has the name and keeps it: it lives, and is none of those that stop.
fn keeps_name(row: &Allocation, name: &AllocName, stopped: &[Allocation]) -> bool
    ensures { result ≡ keeps_name name.now (map alloc_id stopped.now) row.now }
{
    is_live(row) && !has_row(stopped, row.id) && AllocName::of(row) == *name
}

/// Whether one of the rows does.
fn is_kept_in(rows: &Table<Allocation>, name: &AllocName, stopped: &[Allocation]) -> bool
    ensures { result ≡ list_any (keeps_name name.now (map alloc_id stopped.now)) rows.now }
{
    for row in rows.rows() {
        if keeps_name(row, name, stopped) {
            return true;
        }
    }
    false
}

/// Whether a row of the state does. Where it is known that names are held once, it takes time in
/// the logarithm of the table.
fn is_kept(state: &Cluster, name: &AllocName, stopped: &[Allocation]) -> bool
    ensures { let ids = map alloc_id stopped.now in
        result ≡ list_any (keeps_name name.now ids) state.now.allocs }
{
    match state.live_named(name) {
        None => false,
        Some(row) if !has_row(stopped, row.id) => true,
        Some(_) if state.knows_names_distinct() => false,
        Some(_) => is_kept_in(state.alloc_table(), name, stopped),
    }
}

/// Whether no place that is kept is of the place's name, and one of `more` is.
fn is_single(kept: &Kept, more: &[AcceptedPlace], place: &AcceptedPlace) -> bool
    ensures { result ≡ is_single kept.now.places more.now place.now }
{
    count_same(place, kept.places.as_slice()) == 0 && count_same(place, more) == 1
}

/// Whether the name of a place, one of `more`, is its own: no row keeps it, no place that is kept
/// takes it, and of `more` the place alone.
fn is_alone(
    state: &Cluster,
    job: &JobName,
    stopped: &[Allocation],
    kept: &Kept,
    more: &[AcceptedPlace],
    place: &AcceptedPlace,
) -> bool
    requires one { 1 ≤ length (filter (same_place place.now) more.now) }
    ensures { let cs = claimed state.now job.now (kept_so_far stopped.now kept.now) in
        result ≡ is_held_once (cs ++ place_claims job.now more.now) (claim_at job.now place.now) }
{
    is_single(kept, more, place) && !is_kept(state, &name_of(job, place), stopped)
}

/// Whether the name of each of these places is its own.
pub(crate) fn are_alone(
    state: &Cluster,
    job: &JobName,
    stopped: &[Allocation],
    kept: &Kept,
    more: &[AcceptedPlace],
) -> bool
    ensures { let cs = claimed state.now job.now (kept_so_far stopped.now kept.now) in
        let new = place_claims job.now more.now in
        result ≡ list_all (is_held_once (cs ++ new)) new }
{
    for place in more {
        if !is_alone(state, job, stopped, kept, more, place) {
            return false;
        }
    }
    true
}
