//! A run of the program's words on one thread, over any store that opens on a shelf and does what lines mean
//! (`ShelfStore`).
#![tactic(auto)]

mod ending;
mod filling;
mod migrating;
mod one_line;
mod opened;
mod outputs;
mod run;
mod scripts;
mod showing;
mod store;

pub use ending::{
    Ended, answer_from, ended_early, ended_on_out, ended_on_report, one_answer, open_for_one,
};
pub use filling::{ended_fill, script_and_places};
pub use run::{run_command, run_words};
pub use scripts::ended_lines;
pub use store::ShelfStore;
