//! What the counts refuse.
ghost use Rattle.std.specs.Prelude.{◌≡◌};
ghost use Rattle.rows.specs.declared.refusal.Refusal.TheVariants as refusals;
ghost use Rattle.expiry.specs.Errors.{refusal_of};

use rows::Refusal;

/// That a node is not held, as the answer of a call that is refused for nothing else. `?` makes it
/// `Refusal::UnknownNode` where the caller has other refusals too.
#[derive(Clone, Copy, Debug, PartialEq, Eq)]
pub struct UnknownNode;

/// Why a node does not expire. `?` makes it the refusal of that number.
#[derive(Clone, Copy, Debug, PartialEq, Eq)]
pub enum ExpiryError {
    /// 9: the node is not held.
    UnknownNode,
    /// 19: it was heard of another number of times.
    StaleExpiry,
}

impl From<UnknownNode> for Refusal {
    ghost from_gives = { λ _ e. e ≡ refusals.UnknownNode };

    fn from(_e: UnknownNode) -> Refusal {
        Refusal::UnknownNode
    }
}

impl From<ExpiryError> for Refusal {
    ghost from_gives = { λ e r. r ≡ refusal_of e };

    fn from(e: ExpiryError) -> Refusal {
        match e {
            ExpiryError::UnknownNode => Refusal::UnknownNode,
            ExpiryError::StaleExpiry => Refusal::StaleExpiry,
        }
    }
}
