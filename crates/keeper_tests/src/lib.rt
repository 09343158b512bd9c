//! Tests of a keeper's calls over devices in memory: openings, jobs, deletions, pins, backups and restores, a script over
//! a shelf of which each call fails in turn, and the same over one that stops at each, and a crash.
#![tactic(auto)]

#[cfg(test)]
mod backups;
#[cfg(test)]
mod crashing;
#[cfg(test)]
mod events;
#[cfg(test)]
mod failing;
#[cfg(test)]
mod opening;
#[cfg(test)]
mod pins;
#[cfg(test)]
mod restores;
#[cfg(test)]
mod script;
#[cfg(test)]
mod seen;
