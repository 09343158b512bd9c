//! A run of the program's words over a shelf in threads: the streams of backups pass through stages, in `backup`, `batch`
//! and `fill`; the restores of a script run beside its later lines; and the bytes of a single restore are put together in
//! a thread. The other commands run as on one thread.
#![tactic(auto)]

mod backing;
mod beside;
mod filling;
mod opened;
mod restoring;
mod run;

pub use run::run_threaded;
