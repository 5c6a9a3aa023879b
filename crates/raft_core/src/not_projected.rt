ghost use Rattle.std.specs.Prelude.{◌≡◌};
ghost use Rattle.raft_core.specs.declared.not_projected.NotProjected.TheVariants as reasons;

use rows::NoMemory;

/// Why a server has no machine after its whole log.
#[derive(Clone, Copy, Debug, PartialEq, Eq)]
pub enum NotProjected {
    /// Memory ran out.
    NoMemory,
    /// The server does not lead.
    NotLeader,
    /// The server is down.
    Down,
}

impl From<NoMemory> for NotProjected {
    ghost from_gives = { λ _ e. e ≡ reasons.NoMemory };

    fn from(_: NoMemory) -> NotProjected {
        NotProjected::NoMemory
    }
}
