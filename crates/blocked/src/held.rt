use fsm_tables::Row;
use rows::{ClassName, EvalId, Evaluation, Ranged, Sequence};
use std::marker::Model;

/// A blocked evaluation with the classes that its job asks for.
#[derive(Drop)]
pub(crate) struct BlockedEval {
    /// Its row.
    pub row: Evaluation,
    /// The classes.
    pub classes: Sequence<ClassName>,
}

impl Model for BlockedEval {
    ghost use Rattle.group_model.specs.Blocked.{BlockedEval as AnyBlockedEval};

    ghost Value = { AnyBlockedEval };

    ghost view = { λ b. record { row = b.row; classes = b.classes } };
}

impl Ranged for BlockedEval {
    ghost use Rattle.rows.specs.Fits.{EvaluationFits};

    ghost Fits = { λ b. EvaluationFits b.row };

    fn ranges(&self) {
        self.row.ranges();
    }
}

/// Blocked evaluations by id.
impl Row for BlockedEval {
    type Key = EvalId;

    ghost key_of = { λ b. b.row.id };

    fn key(&self) -> &EvalId {
        &self.row.id
    }
}
