//! Tests of runs of the program's words over devices in memory, all through `run_plain`: the worked rows of
//! docs/RULES.md, one run behind another over one store, each with what it prints and its status; and runs over
//! devices that fail, that crash, that are damaged and that have no end.
#![tactic(auto)]

#[cfg(test)]
mod answers;
#[cfg(test)]
mod crashing;
#[cfg(test)]
mod damages;
#[cfg(test)]
mod endless;
#[cfg(test)]
mod failing;
#[cfg(test)]
mod formats;
#[cfg(test)]
mod migrations;
#[cfg(test)]
mod recorded;
#[cfg(test)]
mod rows;
#[cfg(test)]
mod running;
#[cfg(test)]
mod scripts;
#[cfg(test)]
mod scrubs;
#[cfg(test)]
mod unsettled;
