//! What the store reads and prints as text: the words of a command, the lines of a script, and the report lines.
//!
//! A command is a word and settings, each `--name value` or `--name=value`. A script is a list of lines, each a backup, a
//! restore or a deletion. The grammars are those of `vault_types` (`Words`), and so are the printed lines (`Texts`).
#![tactic(auto)]

mod buffer;
mod commands;
mod config;
mod fill;
mod kinds;
mod lines;
mod names;
mod reader;
mod script;
mod script_line;
mod settings;
mod show;
mod texts;
mod values;

pub use commands::{read_replica, read_words};
pub use fill::fill_script;
pub use lines::{Damage, output_text};
pub use script::read_script;
pub use show::show_text;
pub use texts::{answer_text, fault_text};
pub use vault_types::{Command, Line};
