// The line of play of a shortest mate.
ghost use Rattle.std.specs.Prelude.{◌≡◌, ◌-◌, ◌*◌, ◌+◌, ◌↔◌, IsTrue, IfOk, Contains, length};
ghost use Rattle.board_core.specs.Text.{HasText};
ghost use Rattle.shogi_rules.specs.Rules.{IsQuiet};
ghost use Rattle.mate_def.specs.Mate.{CanEvadeTo};
ghost use Rattle.mate_facts.specs.Entries.{IsListedWith, positions_of};
ghost use Rattle.position_places.specs.Places.{ArePlacesOf};
ghost use Rattle.usi_text.specs.Lines.{AllHaveText};
ghost use Rattle.hand_dominance.specs.declared.version.Version.TheVariants.{One};
ghost use Rattle.bound_text.specs.Bound.{bounded_in};
ghost use Rattle.cert_check.specs.Valid.{ValidMate};
ghost use Rattle.bound_check.specs.Valid.{IsValidBound, Keeps};
ghost use Rattle.shortest_lists.specs.Line.{IsListedMove, Lasts, IsFirstLasting, IsShortestLine, LastingIsExact};

use board_core::{Move, Position, order_laws};
use bound_check::valid_bound_is_accepted;
use bound_text::Bound;
use cert_check::{places_of, valid_is_accepted};
use cert_text::MateCertificate;
use evasions::answers;
use mate_def::rank_grows;
use mate_facts::entry_laws;
use position_places::Places;
use shogi_rules::{Problem, apply};
use std::alloc::{AllocError, Global};

// The certificate's move at a listed position.
fn move_at(certificate: &MateCertificate, places: &Places, position: &Position) -> Move
    requires places { ArePlacesOf places.now (positions_of certificate.now.entries) }
    requires listed { Contains (positions_of certificate.now.entries) position.now }
    ensures is_move { IsListedMove certificate.now position.now result }
    ensures text { HasText result }
{
    // The entry that is found is the position's.
    entry_laws();
    match places.find(position) {
        Some(place) => certificate.entries()[place].by,
        None => unreachable!(),
    }
}

// Whether the certificate has this rank at the position.
fn has_rank(certificate: &MateCertificate, places: &Places, rank: u32, position: &Position) -> bool
    requires { ArePlacesOf places.now (positions_of certificate.now.entries) }
    ensures { IsTrue result ↔ IsListedWith certificate.now.entries rank position.now }
{
    // Entries of one position are one entry.
    entry_laws();
    match places.find(position) {
        Some(place) => certificate.entries()[place].rank.number == rank,
        None => false,
    }
}

// Whether the bound lists the position with one less than a rank, or with more; always at rank 1.
fn is_kept(bound: &Bound, places: &Places, rank: u32, position: &Position) -> bool
    requires { ArePlacesOf places.now (bounded_in bound.now.entries) }
    ensures { IsTrue result ↔ Keeps bound.now.entries rank position.now }
{
    if rank <= 1 {
        return true;
    }
    match places.find(position) {
        Some(place) => bound.entries()[place].bound.number >= rank - 1,
        None => false,
    }
}

// Where the positions of the mate and of the bound stand.
#[derive(Drop)]
struct Standing {
    mate: Places,
    bound: Places,
}

// Whether the position lasts for so many moves.
fn lasts(
    certificate: &MateCertificate,
    bound: &Bound,
    standing: &Standing,
    rank: u32,
    position: &Position,
) -> bool
    requires mate { ArePlacesOf standing.now.mate (positions_of certificate.now.entries) }
    requires bound { ArePlacesOf standing.now.bound (bounded_in bound.now.entries) }
    ensures { IsTrue result ↔ Lasts certificate.now bound.now.entries rank position.now }
{
    if !has_rank(certificate, &standing.mate, rank, position) {
        return false;
    }
    is_kept(bound, &standing.bound, rank, position)
}

// The first evasion after a check that leads to a position that lasts for so many moves.
fn first_lasting(
    alloc: Global,
    problem: &Problem,
    certificate: &MateCertificate,
    bound: &Bound,
    standing: &Standing,
    rank: u32,
    checked: &Position,
) -> Result<Move, AllocError>
    requires mate { ArePlacesOf standing.now.mate (positions_of certificate.now.entries) }
    requires bound { ArePlacesOf standing.now.bound (bounded_in bound.now.entries) }
    requires quiet { IsQuiet checked.now }
    requires some { CanEvadeTo problem.now.position.side
        (Lasts certificate.now bound.now.entries rank) checked.now }
    ensures { IfOk result (λ evasion. IsFirstLasting certificate.now bound.now.entries
        problem.now.position.side rank checked.now evasion) }
{
    // In a list in the order of moves, what comes sooner stands sooner.
    order_laws();
    let evasions = answers(alloc, problem, checked)?;
    for evasion in evasions.as_slice() {
        let next = apply(checked, *evasion);
        if lasts(certificate, bound, standing, rank, &next) {
            return Ok(*evasion);
        }
    }
    unreachable!()
}

/// A law: that the ranks on a line of play are exact. Does nothing; whoever speaks of a line calls
/// it to know this.
pub fn line_laws()
    ensures { LastingIsExact }
{
    valid_is_accepted();
    valid_bound_is_accepted();
    rank_grows();
}

/// The line of play of a mate of the problem, of which a bound shows that it isn't shorter: at each
/// position of the attacker the certificate's move; and after it, till the last, the first evasion,
/// in the order of moves, that leads to a position with a rank one less, which the bound lists, if
/// that is above 1, with one less than it, or with more. So the ranks are exact: see
/// [`line_laws`]. Errors: want of memory alone.
pub fn line_of(
    alloc: Global,
    problem: &Problem,
    certificate: &MateCertificate,
    bound: &Bound,
    rank: u32,
) -> Result<Vec<Move>, AllocError>
    requires valid { ValidMate certificate.now problem.now.position }
    requires version { certificate.now.version ≡ One }
    requires rank { IsListedWith certificate.now.entries rank problem.now.position }
    requires bound { IsValidBound bound.now.entries problem.now.position (rank - 1) }
    ensures line { IfOk result (λ moves. IsShortestLine certificate.now bound.now.entries
        problem.now.position rank moves.items) }
    ensures texts { IfOk result (λ moves. AllHaveText moves.items) }

    // It has each move of the attacker, and an evasion to each but the last.
    ensures count { IfOk result (λ moves. length moves.items + 1 ≡ 2 * rank) }
{
    // What a valid certificate and a valid bound show: each position that the first lists is a mate
    // within its rank, and none that the second lists is one within its number.
    valid_is_accepted();
    valid_bound_is_accepted();
    rank_grows();
    entry_laws();
    certificate.laws();
    problem.position.laws();
    let standing = Standing {
        mate: places_of(alloc, certificate)?,
        bound: places_of(alloc, bound)?,
    };
    let mut moves = Vec::new(alloc);
    let mut position = problem.position;
    let mut left = rank;
    loop {
        let check = move_at(certificate, &standing.mate, &position);
        moves.push(check)?;
        if left == 1 {
            return Ok(moves);
        }
        left -= 1;
        let checked = apply(&position, check);
        let evasion = first_lasting(
            alloc,
            problem,
            certificate,
            bound,
            &standing,
            left,
            &checked,
        )?;
        moves.push(evasion)?;
        position = apply(&checked, evasion);
    }
}
