use crate::amount::Amount;

/// What moves a tally. Each command adds one to the count.
#[derive(Drop)]
pub enum TallyCommand {
    /// Leaves the sum.
    Noop,
    /// Adds the amount to the sum. A state whose sum would pass 1,000 refuses it with `OutOfRange`;
    /// applied all the same, it leaves the sum.
    Add(Amount),
}
