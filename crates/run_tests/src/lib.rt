//! Tests of runs in threads: the worked rows of docs/RULES.md, and made scripts, for which the same words over equal
//! devices leave the same blobs, files, texts and status as on one thread.
#![tactic(auto)]

#[cfg(test)]
mod both;
#[cfg(test)]
mod made;
#[cfg(test)]
mod rows;
#[cfg(test)]
mod running;
#[cfg(test)]
mod scripts;
#[cfg(test)]
mod threads;
