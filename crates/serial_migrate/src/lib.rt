//! Recipes of the first format are put again in the second, on one thread. Each version whose recipe has no sum is restored
//! to a sink that sums its bytes, and then its recipe is put with that sum.
#![tactic(auto)]

mod migrating;
mod one;
mod sum_sink;

pub use crate::migrating::migrate_plain;
