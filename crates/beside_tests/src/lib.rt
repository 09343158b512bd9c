//! Tests of restores that run beside later lines, over a keeper. Each test ends whatever the schedule.
#![tactic(auto)]

#[cfg(test)]
mod crashing;
#[cfg(test)]
mod deletions;
#[cfg(test)]
mod failing;
#[cfg(test)]
mod running;
#[cfg(test)]
mod two_restores;
