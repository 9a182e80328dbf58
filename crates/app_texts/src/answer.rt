// What is found out about a problem and about a certificate.
use board_core::Move;
use cert_check::Why;
use cert_text::{Claim, EscapeCertificate, MateCertificate};
use search_limits::Cause;
use std::marker::Model;
use worker_core::Crew;

/// The moves of a mate: the attacker's and the defender's in turn, from the attacker's first.
/// Contracts see the list.
#[derive(Drop)]
pub struct MainLine {
    moves: Vec<Move>,
}

impl Model for MainLine {
    ghost use Rattle.std.specs.Prelude.{List};
    ghost use Rattle.board_core.specs.declared.moves.Move.{Move};

    ghost Value = { List Move };

    ghost view = { λ line. line.moves.items };
}

impl MainLine {
    ghost use Rattle.std.specs.Prelude.{◌≡◌};

    /// The line of these moves.
    pub fn new(moves: Vec<Move>) -> MainLine
        ensures { result ≡ moves.items }
    {
        MainLine { moves }
    }

    /// Its moves, in order.
    pub fn moves(&self) -> &[Move]
        ensures { result.now ≡ self.now }
    {
        &self.moves
    }
}

/// What was found out about a problem.
#[derive(Drop)]
pub enum Solution {
    /// It is a mate: the certificate, and the main line.
    Mate(MateCertificate, MainLine),
    /// It is no mate: the certificate.
    NoMate(EscapeCertificate),
    /// Neither was found before a limit was used up, or the search was stopped: which, and the
    /// search's workers as they ended. Or one was found, and its certificate would have more
    /// entries than one is read with: that, and no workers.
    Unknown(Cause, Crew),
}

/// What was found out about a certificate.
#[derive(Drop)]
pub enum Judgement {
    /// It is valid for the problem that was asked about, or for its own.
    Accepted {
        /// What it claims of its problem, and so what holds of it.
        claim: Claim,
        /// The number of its entries.
        entries: u64,
    },
    /// It isn't.
    Refused {
        /// The first entry that something speaks against, counted from 1; 0 for the certificate as
        /// a whole.
        entry: u64,
        /// The first reason against it.
        why: Why,
    },
}
