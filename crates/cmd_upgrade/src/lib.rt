//! The command `upgrade`: it reads a certificate, checks it as `check` does, and writes it in
//! version 2, in which a position stands for others too (`hand_dominance`).
//!
//! What its words ask for is an [`Upgrade`], which has its line of the command line and reads them,
//! and is a command of [`one_run`]. [`upgrade`] is one run of it, whose clauses are what the
//! command promises, in plain words first.
#![tactic(auto)]

mod answer;
mod asked;
mod judging;
mod running;
mod words;

pub use answer::UpgradeAnswer;
pub use running::upgrade;
pub use words::Upgrade;
