ghost use Rattle.std.specs.Prelude.{◌≡◌, ◌≤◌, ◌<◌, ◌+◌, ◌^◌, Some, length, option_map};
ghost use Rattle.rows.specs.Sizes.{Part, amount};
ghost use Rattle.fsm_tables.specs.Claims.{is_wanted, is_active, is_live};
ghost use Rattle.fsm_tables.specs.Inner.Sums.{AreSummed, AreMore, AreLess, IsShare, sum_at};

use pages::Table;
use rows::{Allocation, ClientState, Desired, Usage};

/// What one row takes of its node; of node 0, which is none, where it takes nothing of any.
#[derive(Clone, Copy)]
pub(crate) struct Share {
    /// The node's number, or 0.
    pub node: usize,
    /// What it takes.
    pub size: Usage,
}

/// Whether the servers want an allocation to run.
pub(crate) fn is_wanted(desired: Desired) -> bool
    ensures { result ≡ is_wanted desired }
{
    match desired {
        Desired::Run => true,
        Desired::Stop => false,
    }
}

/// Whether an allocation's node has still to start it, or runs it, or may do so while it is not
/// heard of. (Nomad documentation, "Allocations": client status.)
pub fn is_active(state: ClientState) -> bool
    ensures { result ≡ is_active state }
{
    match state {
        ClientState::Pending | ClientState::Running | ClientState::Unknown => true,
        ClientState::Complete | ClientState::Failed | ClientState::Lost => false,
    }
}

/// Whether an allocation is live: it is to run, and is pending, running or unknown at its node.
/// Only live ones hold room and a name. (Nomad documentation, "Allocations": desired status and
/// client status.)
pub fn is_live(row: &Allocation) -> bool
    ensures { result ≡ is_live row.now }
{
    is_wanted(row.desired) && is_active(row.client)
}

/// What a row takes of its node.
#[tactic(auto, using(crate::proofs::Sums::share_is))]
fn held(row: &Allocation) -> Share
    ensures { IsShare (Some row.now) result }
{
    let size = Usage::of(row.size);
    Share {
        node: row.node.number() as usize,
        size: if is_live(row) { size } else { Usage::NONE },
    }
}

/// The same, where there may be no row.
pub(crate) fn held_by(row: Option<&Allocation>) -> Share
    ensures { IsShare (option_map (λ r. r.now) row.entry) result }
{
    match row {
        Some(row) => held(row),
        None => Share {
            node: 0,
            size: Usage::NONE,
        },
    }
}

/// Adds a share to its node's sum.
pub(crate) fn put_on(sums: &mut [Usage; 65], share: Share)
    requires place { share.node < 65 }
    requires fits { (p : Part) → sum_at sums.old share.node p + amount p share.size < 2 ^ 64 }
    ensures { AreMore share sums.old sums.new }
{
    sums[share.node] = sums[share.node].add(share.size);
}

/// Takes a share from its node's sum.
pub(crate) fn take_off(sums: &mut [Usage; 65], share: Share)
    requires place { share.node < 65 }
    ensures { AreLess share sums.old sums.new }
{
    sums[share.node] = sums[share.node].take(share.size);
}

/// What the live ones of the rows take of each node, by node number, added up in one walk.
pub(crate) fn sums_of(rows: &Table<Allocation>) -> [Usage; 65]
    requires { length rows.now ≤ 65536 }
    ensures { AreSummed rows.now result }
{
    let mut sums = [Usage::NONE; 65];
    rows.ranges();
    for row in rows.rows() {
        put_on(&mut sums, held(row));
    }
    sums
}
