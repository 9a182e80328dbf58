// The main line.
ghost use Rattle.std.specs.Prelude.{IfOk};
ghost use Rattle.usi_text.specs.Lines.{AllHaveText};
ghost use Rattle.cert_check.specs.Valid.{ValidMate};
ghost use Rattle.play_line.specs.Line.{IsMainLine, DoMate};

use crate::defence::defence;
use crate::finding::place_of;
use board_core::Move;
use cert_check::cover_places_of;
use cert_text::MateCertificate;
use hand_dominance::listing_laws;
use shogi_rules::{Problem, apply};
use std::alloc::{AllocError, Global};

/// The main line of a mate's certificate that is valid for the problem: at each position of the
/// attacker the certificate's move, and as long as the defender has an evasion, the one that leads
/// to the position of the highest rank, the first such in the order of moves. It ends with the move
/// that has no evasion. The certificate's move and rank at a position are those of an entry: in
/// version 1 of the one that has the position, in version 2 of the first of the least rank whose
/// position it dominates. Errors: want of memory alone.
pub fn main_line(
    alloc: Global,
    problem: &Problem,
    certificate: &MateCertificate,
) -> Result<Vec<Move>, AllocError>
    requires { ValidMate certificate.now problem.now.position }
    ensures line { IfOk result
        (λ moves. IsMainLine certificate.now problem.now.position.side problem.now.position
        moves.items) }
    // They are checks and evasions in turn, up to the mate.
    ensures mates { IfOk result
        (λ moves. DoMate problem.now.position.side problem.now.position moves.items) }
    ensures texts { IfOk result (λ moves. AllHaveText moves.items) }
{
    // An entry's move serves at each position that covers the entry's.
    listing_laws();
    let places = cover_places_of(alloc, certificate)?;
    let entries = certificate.entries();
    let attacker = problem.attacker();
    let mut room = Vec::new(alloc);
    let mut position = problem.position;
    let mut place = place_of(certificate, &places, attacker, &position, &mut room)?;
    let mut moves = Vec::new(alloc);
    loop {
        let entry = &entries[place];
        position.laws();
        entry.at.laws();
        moves.push(entry.by)?;
        let checked = apply(&position, entry.by);
        match defence(alloc, problem, certificate, &places, &checked, &mut room)? {
            None => return Ok(moves),
            Some(evasion) => {
                moves.push(evasion)?;
                position = apply(&checked, evasion);
                place = place_of(certificate, &places, attacker, &position, &mut room)?;
            }
        }
    }
}
