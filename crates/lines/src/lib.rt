// Lines of text: what a call's line says, and the lines of the answers (paper: Program and host).
#![tactic(auto)]

mod failure;
mod reading;
mod recording;
mod writing;

pub use failure::Failure;
pub use reading::{Call, Line, Reader, finish, fresh, push, read};
pub use recording::{
    begin_folded, begin_held, end_list, list_number, list_pair, write_entry, write_unformed,
};
pub use writing::{
    LINE_ROOM, SHEET_ROOM, write_closing, write_import, write_log, write_night, write_owner,
    write_refused, write_reply, write_totals, write_why,
};
