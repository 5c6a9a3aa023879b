//! Fields as bytes, both ways: a reader and a writer for each field, row, command and entry, for
//! lists and for options, by the formats of `fields_model` and `machine_model`. One value has one
//! text.
#![tactic(auto)]

mod codes;
mod commands;
mod entry;
mod field;
mod groups;
mod ids;
mod laws;
mod list;
mod reading;
mod rows_text;
mod ruled;
mod services;
mod tally;
mod writing;

pub use field::{Field, read_whole, write};
pub use laws::{
    combinations_are_lawful, lists_are_lawful, ruled_lists_are_lawful, texts_are_whole,
};
pub use list::{
    read_items, read_list, read_long_list, read_option, write_counted, write_items, write_list,
    write_long_counted, write_long_list, write_option,
};
pub use reading::{
    read_actor, read_bool, read_index, read_server, read_term, read_u8, read_u16, read_u32,
    read_u64,
};
pub use ruled::{RuledField, read_long_ruled_list, read_ruled_list};
pub use services::{read_told_reason, write_told_reason};
pub use writing::{
    write_actor, write_bool, write_index, write_server, write_term, write_u8, write_u16, write_u32,
    write_u64,
};
