//! Tests of blobs and of the calls that put and get them, over the devices in memory: numbers and sums, tables, recipes
//! and floors, containers, the spots of rows, and the parts of a keeper's calls.
#![tactic(auto)]

#[cfg(test)]
mod blobs;
#[cfg(test)]
mod containers;
#[cfg(test)]
mod forms;
#[cfg(test)]
mod parts;
#[cfg(test)]
mod recipes;
#[cfg(test)]
mod replacing;
#[cfg(test)]
mod shelves;
#[cfg(test)]
mod spots;
#[cfg(test)]
mod tables;
