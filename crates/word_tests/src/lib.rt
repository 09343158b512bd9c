//! Tests of what is read and printed as text: the words of a command, the lines of a script, and the report lines. They
//! stand apart, so that `script_words` is proved once.
#![tactic(auto)]

#[cfg(test)]
mod commands;
#[cfg(test)]
mod printed;
#[cfg(test)]
mod scripts;
