//! A run of a script's lines over a keeper, in which the stream of a backup passes through stages in threads. Lines run one
//! after another.
#![tactic(auto)]

mod backing;
mod run;

pub use backing::back_up_piped;
pub use run::script_piped;
