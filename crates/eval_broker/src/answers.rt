//! What a broker refuses.
ghost use Rattle.std.specs.Prelude.{◌≡◌};
ghost use Rattle.rows.specs.declared.refusal.Refusal.TheVariants as refusals;
ghost use Rattle.eval_broker.specs.Answers.{refusal_of};

use rows::Refusal;

/// Why an evaluation and a token are no outstanding pair. `?` makes it the refusal of that number.
#[derive(Clone, Copy, Debug, PartialEq, Eq)]
pub enum PairError {
    /// 4: the evaluation is not outstanding.
    NotOutstanding,
    /// 5: it is outstanding under another token.
    TokenDiffers,
}

/// 14: there is an evaluation to give out, and no serial is left. `?` makes it
/// `Refusal::Exhausted`.
#[derive(Clone, Copy, Debug, PartialEq, Eq)]
pub struct SerialsUsedUp;

impl From<PairError> for Refusal {
    ghost from_gives = { λ e r. r ≡ refusal_of e };

    fn from(e: PairError) -> Refusal {
        match e {
            PairError::NotOutstanding => Refusal::NotOutstanding,
            PairError::TokenDiffers => Refusal::TokenDiffers,
        }
    }
}

impl From<SerialsUsedUp> for Refusal {
    ghost from_gives = { λ _ r. r ≡ refusals.Exhausted };

    fn from(_e: SerialsUsedUp) -> Refusal {
        Refusal::Exhausted
    }
}
