//! Tests of scrubbing over a keeper: each kind of damage of each container, shelves that fail, and checks in threads.
#![tactic(auto)]

#[cfg(test)]
mod damage;
#[cfg(test)]
mod stores;
#[cfg(test)]
mod threads;
