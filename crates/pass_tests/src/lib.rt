//! Tests of the two ends of a stream: the filling of containers and the pass of a backup, and a restore's copying.
#![tactic(auto)]

#[cfg(test)]
mod copying;
#[cfg(test)]
mod cutting;
#[cfg(test)]
mod filling;
#[cfg(test)]
mod passing;
