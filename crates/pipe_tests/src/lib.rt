//! Tests of a backup's job in threads, beside the pass of the same bytes on one thread.
#![tactic(auto)]

#[cfg(test)]
mod jobs;
#[cfg(test)]
mod sealing;
#[cfg(test)]
mod streams;
