use rows::{AcceptedPlace, AcceptedPlan, NodeId, Sequence};

/// What a leader keeps of a plan. (Nomad documentation, "Scheduling in Nomad": a plan may be
/// accepted in part.)
#[derive(Drop)]
pub struct Accepted {
    /// What is kept, as it is proposed to the log: at most 64 stops and 64 places.
    pub plan: AcceptedPlan,
    /// The nodes that keep none of their places, in rising number.
    pub refused: Sequence<NodeId>,
}

/// What is kept of the places of a plan, so far.
#[derive(Drop)]
pub(crate) struct Kept {
    /// The allocations that are made.
    pub places: Sequence<AcceptedPlace>,
    /// The nodes that keep none of their places.
    pub refused: Sequence<NodeId>,
}
