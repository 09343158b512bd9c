//! Tests of what two or more threads do together: the lines between stages, the word that stops them, the stages themselves,
//! and devices whose calls wait for one another. They stand apart, so that the crates of the threads are proved once.
#![tactic(auto)]

#[cfg(test)]
mod gated;
#[cfg(test)]
mod lines;
#[cfg(test)]
mod stages;
#[cfg(test)]
mod stopping;
