//! What a run of the program promises, as definitions alone: `specs/`.
//!
//! A reader begins with `Run` (a run of the program's words) and `World` (what the devices tell before and behind it), and
//! goes on to `Courses`, `Filling`, `Migrating` and `Early` (the runs of each command, and those that end early). A script's
//! lines have `Script` (what they mean), `Table` (the answers), `Leaves` (the blobs, and what a crash leaves), `Outputs`,
//! `Strays`, `Causes`, `Complete` and `Keeping` (that versions keep their bytes). `Steps`, `Calls`, `View` and `Room` say
//! what one line, and the keeper's call that runs it, do; `Ranges` what the grammar lets through.
#![tactic(auto)]
