//! What processes did that run the loop of `journal` and were killed at any moment: they are those
//! of `processes`.
#![tactic(auto)]

mod laws;

pub use laws::{
    GroupClientProcess, GroupServerProcess, ServerProcess, group_lives_keep_the_headline,
    lives_keep_one_list,
};
