//! Tests of the rules of a backup, a restore and a deletion, with no device: how a stream is cut and its chunks are named,
//! which chunks are written, which container has a chunk, which are sparse, when a restore loads them, and which containers
//! are still needed. They stand apart, so that the crates of these rules are proved once.
#![tactic(auto)]

#[cfg(test)]
mod capped;
#[cfg(test)]
mod cutting;
#[cfg(test)]
mod deciding;
#[cfg(test)]
mod finding;
#[cfg(test)]
mod marking;
#[cfg(test)]
mod naming;
#[cfg(test)]
mod pinning;
#[cfg(test)]
mod planning;
#[cfg(test)]
mod set_marking;
#[cfg(test)]
mod sparse_lists;
