ghost use Rattle.std.specs.Prelude.{◌≡◌, ◌++◌, OnOk};

use rows::Ranged;
use std::alloc::AllocError;

/// A row of a table: it holds its own key.
pub trait Row: Drop + Ranged {
    /// What a row is found by.
    type Key: Ord + Copy + Drop;

    /// The key that a row holds.
    ghost key_of: { Self → Self.Key };

    /// The row's key.
    fn key(&self) -> &Self::Key
        ensures { result.now ≡ key_of self.now };
}

/// Rows of which there may be others that are the same.
pub trait CopiedRow: Row {
    /// Puts the same rows once more to the end of a list, in time of the rows. Without memory the
    /// list is fit only to be dropped.
    fn append_copies(rows: &[Self], out: &mut Vec<Self>) -> Result<(), AllocError>
        ensures { OnOk result (out.new.items ≡ out.old.items ++ rows.now) };
}
