//! A backup among the lines of a run with restores beside it, over a keeper with places. While the backup's stream passes
//! through its stages the restores that run get their payloads. To the run such a load is one before the backup's line,
//! since it leaves all of a keeper but two counts. A restore that has replied ends behind the line, since its pin is one
//! that the job began with.
#![tactic(auto)]

mod feeding;
mod line;
mod stream;

pub use crate::line::backup_beside;
