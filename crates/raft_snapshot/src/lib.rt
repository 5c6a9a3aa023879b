//! A log whose first entries may be covered by a snapshot, known by their number, the term of the
//! last one and the state after them; what a server stores; and how a log's entries come in and are
//! applied to a machine. (Raft, extended version 2014, section 7 and Figure 2.)
#![tactic(auto)]

mod again;
mod apply;
mod laws;
mod log;
mod merge;
mod projecting;
mod reading;
mod snapshot;
mod stable;
mod watch;
mod writing;

pub use again::command_again;
pub use apply::{apply_range, apply_range_watched};
pub use laws::{
    changes_lead, compactions_refine_servers, snapshots_are_received, stable_texts_are_whole,
    steps_keep_prefixes, steps_keep_terms_told,
};
pub use log::Log;
pub use merge::append_entries;
pub use projecting::{project, project_next};
pub use reading::{Front, read_change, read_stable, take_change};
pub use snapshot::Snapshot;
pub use stable::Stable;
pub use watch::{Unwatched, Watch};
pub use writing::{write_change, write_parts, write_stable};
