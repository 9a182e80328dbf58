//! The checker of libraries: whether each certificate of one is valid for its own problem.
//!
//! [`first_refused`] accepts exactly the libraries of valid certificates, whoever wrote them, and
//! names the first certificate and the first reason against any other. What valid means is defined
//! in `cert_check`. One certificate is checked after the other, each in one thread.
#![tactic(auto)]

mod refused;

pub use refused::{Refused, first_refused};
