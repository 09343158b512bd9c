//! Tests of the devices: those in memory, those over a folder and the host's streams, those with gates, on one thread, and
//! the places of `fill`. They stand apart, so that the crates of the devices are proved once.
#![tactic(auto)]

#[cfg(test)]
mod calls;
#[cfg(test)]
mod folders;
#[cfg(test)]
mod gated;
#[cfg(test)]
mod generated;
#[cfg(test)]
mod in_memory;
