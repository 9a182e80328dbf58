//! Tests of the commands: what words ask for, the texts of answers and of reports, and what is told
//! of collections and of surveys.
//!
//! They call public calls alone, of crates below the program, so that they don't wait for it.
//! Without tests this crate is empty.
#![tactic(auto)]

#[cfg(test)]
mod collections;
#[cfg(test)]
mod lines;
#[cfg(test)]
mod same;
#[cfg(test)]
mod surveys;
#[cfg(test)]
mod texts;
#[cfg(test)]
mod words;
