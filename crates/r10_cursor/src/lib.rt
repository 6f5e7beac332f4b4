//! Find and replay: of a mounted directory's files, by number, each judged once, entries are found, timed and replayed from the
//! packets that may have them, and the cursors of all readers represent those of the small machine.
#![tactic(auto)]

mod books;
mod count;
mod cursor;
mod entries;
mod fault;
mod judged_file;
mod kinds;
mod laws;
mod listing;
mod packet;
mod range;
mod reader;
mod refusal;
mod replay;
mod search;
mod search_step;
mod table;
mod table_laws;
mod written;

pub use count::count_at;
pub use cursor::Cursor;
pub use fault::ReplayFault;
pub use laws::{files_that_are_said, what_is_known_stays};
pub use listing::entry_at;
pub use reader::Reader;
pub use refusal::ReadRefusal;
pub use replay::FileReplay;
pub use search::find;
pub use table::{check_read, close_cursor, next_entry, open_cursor};
pub use table_laws::{advances_are_the_machines, cursors_stay_over_steps};
pub use written::Written;
