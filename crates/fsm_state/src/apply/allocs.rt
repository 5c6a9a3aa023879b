//! One allocation that changes, by which it may end.
ghost use Rattle.std.specs.Prelude.{◌≡◌, ◌&&◌, OnOk};
ghost use Rattle.fsm_state.specs.Inner.Steps.{revised_to};

use crate::cluster::Cluster;
use fsm_tables::is_live;
use rows::{Allocation, NoMemory};

impl Cluster {
    /// Puts a changed row; if it was live and is not now, its node has room.
    pub(super) fn revise(&mut self, old: Allocation, row: Allocation) -> Result<(), NoMemory>
        ensures { OnOk result (self.new ≡ revised_to old row self.old) }
    {
        if is_live(&old) && !is_live(&row) {
            self.give_room(old.node)?;
        }
        self.put_alloc(row)
    }
}
