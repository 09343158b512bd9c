//! Tests of a backup in threads, beside the same on one thread.
#![tactic(auto)]

#[cfg(test)]
mod backups;
