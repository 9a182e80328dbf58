//! The checker of certificates: whether a certificate is valid for a problem.
//!
//! [`check`] accepts exactly the valid certificates, of either version, whoever wrote them, and
//! names the first reason against any other. That it accepts a mate's certificate implies that the
//! problem is a mate; that it accepts an escape's, that it is none. What valid means is defined in
//! `specs/Valid.antt`, and the reasons in `specs/Reasons.antt`. Whoever wants the entries heard in
//! stretches, as in several threads, opens a [`Hearing`], from which the same verdict follows:
//! `specs/Hearing.antt`. [`upgrade`] brings a certificate to version 2, in which it stays valid.
#![tactic(auto)]

mod hearing;
mod places;
mod reached;
mod reasons;
mod upgrading;
mod verdict;

pub use hearing::{Hearing, Objection};
pub use places::{cover_places_of, places_of};
pub use upgrading::upgrade;
pub use verdict::{Verdict, Why, check, valid_is_accepted, verdict_laws};
