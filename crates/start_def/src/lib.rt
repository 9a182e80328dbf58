//! The numbers with which a position begins of which a search knows none, in place of 1 and 1
//! (Nagai 2002), and how the defender's answers are counted for them. The definitions are in
//! `specs/`; `start_numbers` reckons them.
#![tactic(auto)]
