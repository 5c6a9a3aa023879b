//! What a desk refuses in calls that take no memory.
ghost use Rattle.std.specs.Prelude.{◌≡◌};
ghost use Rattle.eval_broker.specs.declared.answers.PairError.TheVariants as pair_errors;
ghost use Rattle.leader.specs.declared.desk_error.DeskError.TheVariants as desk_errors;
ghost use Rattle.leader.specs.Errors.{desk_refusal, pair_refused, expiry_refused};

use eval_broker::{PairError, SerialsUsedUp};
use expiry::{ExpiryError, UnknownNode};
use rows::Refusal;

/// Why a desk refuses a call that takes no memory. `?` makes it the refusal of that number.
#[derive(Clone, Copy, Debug, PartialEq, Eq)]
pub enum DeskError {
    /// 3: the desk is closed.
    NotOpen,
    /// 4: the evaluation is not outstanding.
    NotOutstanding,
    /// 5: it is outstanding under another token.
    TokenDiffers,
    /// 9: the node is neither ready nor disconnected, so no heartbeats of it are counted.
    UnknownNode,
    /// 14: there is an evaluation to give out, and no serial is left.
    Exhausted,
    /// 19: the node was heard of another number of times.
    StaleExpiry,
}

impl From<DeskError> for Refusal {
    ghost from_gives = { λ e r. r ≡ desk_refusal e };

    fn from(e: DeskError) -> Refusal {
        match e {
            DeskError::NotOpen => Refusal::NotOpen,
            DeskError::NotOutstanding => Refusal::NotOutstanding,
            DeskError::TokenDiffers => Refusal::TokenDiffers,
            DeskError::UnknownNode => Refusal::UnknownNode,
            DeskError::Exhausted => Refusal::Exhausted,
            DeskError::StaleExpiry => Refusal::StaleExpiry,
        }
    }
}

impl From<PairError> for DeskError {
    ghost from_gives = { λ e r. r ≡ pair_refused e };

    fn from(e: PairError) -> DeskError {
        match e {
            PairError::NotOutstanding => DeskError::NotOutstanding,
            PairError::TokenDiffers => DeskError::TokenDiffers,
        }
    }
}

impl From<SerialsUsedUp> for DeskError {
    ghost from_gives = { λ _ r. r ≡ desk_errors.Exhausted };

    fn from(_e: SerialsUsedUp) -> DeskError {
        DeskError::Exhausted
    }
}

impl From<UnknownNode> for DeskError {
    ghost from_gives = { λ _ r. r ≡ desk_errors.UnknownNode };

    fn from(_e: UnknownNode) -> DeskError {
        DeskError::UnknownNode
    }
}

impl From<ExpiryError> for DeskError {
    ghost from_gives = { λ e r. r ≡ expiry_refused e };

    fn from(e: ExpiryError) -> DeskError {
        match e {
            ExpiryError::UnknownNode => DeskError::UnknownNode,
            ExpiryError::StaleExpiry => DeskError::StaleExpiry,
        }
    }
}
