// Which moves are legal, and why the others aren't.
ghost use Rattle.std.specs.Prelude.{◌≡◌, ◌≢◌, ◌<◌, ◌↔◌, IsTrue, OnOk};
ghost use Rattle.bit_boards.specs.declared.piece.Kind.TheVariants.{King};
ghost use Rattle.board_core.specs.Board.{piece_at, hand_count, hand_of, is_pawn_of};
ghost use Rattle.board_core.specs.Text.{HasText};
ghost use Rattle.shogi_rules.specs.Rules.{is_in_zone, promotion_fits, IsOwn, Fits, PromotionFits, HasPawnOnFile, BoardMove, IsFirst, RefusesBoard, RefusesDrop, IsLegalOutcome, IsQuiet};
ghost use Rattle.shogi_rules.specs.declared.illegal.Illegal.TheVariants.{TwoPawns};
ghost use Rattle.shogi_rules.specs.Scan.{GoesTo, GoesFrom, IsStuck};

use crate::checking::in_check;
use crate::illegal::Illegal;
use crate::movement::is_clear;
use crate::moving::{drop_piece, move_piece};
use bit_boards::{Mask, fits, mask_laws};
use board_core::{Kind, Move, Piece, Position, Side, Square};

pub(crate) fn owns(position: &Position, square: Square) -> bool
    ensures { IsTrue result ↔ IsOwn position.now square.number }
{
    match position.piece_at(square) {
        Some(piece) => piece.side == position.side(),
        None => false,
    }
}

fn fits_there(position: &Position, from: Square, to: Square) -> bool
    ensures { IsTrue result ↔ Fits position.now from.number to.number }
{
    match position.piece_at(from) {
        Some(piece) => fits(piece, from, to),
        None => false,
    }
}

fn is_in_zone(side: Side, square: Square) -> bool
    ensures { result ≡ is_in_zone side square.number }
{
    square.height(side) >= 6
}

fn promotion_fits(piece: Piece, from: Square, to: Square, promote: bool) -> bool
    ensures { result ≡ promotion_fits piece from.number to.number promote }
{
    if promote {
        !piece.promoted
            && piece.kind.can_promote()
            && (is_in_zone(piece.side, from) || is_in_zone(piece.side, to))
    } else {
        !piece.is_dead_on(to)
    }
}

fn may_promote(position: &Position, from: Square, to: Square, promote: bool) -> bool
    ensures { IsTrue result ↔ PromotionFits position.now from.number to.number promote }
{
    match position.piece_at(from) {
        Some(piece) => promotion_fits(piece, from, to, promote),
        None => false,
    }
}

fn legal_board(position: &Position, from: Square, to: Square, promote: bool) -> Result<(), Illegal>
    requires quiet { IsQuiet position.now }
    ensures first { IsFirst (RefusesBoard position.now from.number to.number promote) result }
    ensures moves { OnOk result (from.number ≢ to.number) }
{
    if !owns(position, from) {
        return Err(Illegal::NotThere);
    }
    if owns(position, to) {
        return Err(Illegal::OwnPiece);
    }
    if !fits_there(position, from, to) {
        return Err(Illegal::NoStep);
    }
    if !is_clear(position, from, to) {
        return Err(Illegal::Blocked);
    }
    if !may_promote(position, from, to, promote) {
        return Err(Illegal::BadPromotion);
    }
    let next = move_piece(position, from, to, promote);
    if in_check(&next, position.side()) {
        return Err(Illegal::KingLeft);
    }
    Ok(())
}

fn goes_to(position: &Position, from: Square, to: Square) -> bool
    requires { IsQuiet position.now }
    ensures { IsTrue result ↔ GoesTo position.now from.number to.number }
{
    legal_board(position, from, to, false).is_ok() || legal_board(position, from, to, true).is_ok()
}

#[tactic(auto, using(std::proofs::Common::below_more))]
fn goes_from(position: &Position, from: Square) -> bool
    requires { IsQuiet position.now }
    ensures { IsTrue result ↔ GoesFrom position.now from.number }
{
    if !owns(position, from) {
        return false;
    }
    for number in 0..81 {
        if goes_to(position, from, Square { number }) {
            return true;
        }
    }
    false
}

#[tactic(auto, using(std::proofs::Common::below_more))]
fn has_board_move(position: &Position) -> bool
    requires { IsQuiet position.now }
    ensures { IsTrue result ↔ BoardMove position.now }
{
    for number in 0..81 {
        if goes_from(position, Square { number }) {
            return true;
        }
    }
    false
}

fn has_pawn_on_file(position: &Position, side: Side, to: Square) -> bool
    ensures { IsTrue result ↔ HasPawnOnFile position.now.cells side to.number }
{
    // Sets hold nothing but squares of the board.
    mask_laws();
    let pawns = position.pawns().and(position.occupied(side));
    !pawns.and(Mask::file(to.file())).is_empty()
}

fn is_second_pawn(position: &Position, kind: Kind, to: Square) -> bool
    ensures { IsTrue result ↔ RefusesDrop position.now kind to.number TwoPawns }
{
    if kind != Kind::Pawn {
        return false;
    }
    has_pawn_on_file(position, position.side(), to)
}

pub(crate) fn has_in_hand(position: &Position, kind: Kind) -> bool
    ensures some { IsTrue result ↔ (0 < hand_count (hand_of position.now position.now.side) kind) }
    ensures king { IsTrue result → kind ≢ King }
{
    if kind == Kind::King {
        // A hand has seven counts, and none of a king.
        position.hand(position.side()).laws();
        return false;
    }
    position.hand(position.side()).count(kind) > 0
}

fn is_stuck(position: &Position, kind: Kind) -> bool
    requires { IsQuiet position.now }
    ensures { IsTrue result ↔ IsStuck position.now kind }
{
    if kind != Kind::Pawn {
        return false;
    }
    if !in_check(position, position.side()) {
        return false;
    }
    !has_board_move(position)
}

fn legal_drop(position: &Position, kind: Kind, to: Square) -> Result<(), Illegal>
    requires { IsQuiet position.now }
    ensures first { IsFirst (RefusesDrop position.now kind to.number) result }
    ensures king { OnOk result (kind ≢ King) }
{
    if let Some(_) = position.piece_at(to) {
        return Err(Illegal::Occupied);
    }
    if !has_in_hand(position, kind) {
        return Err(Illegal::NotInHand);
    }
    if Piece::plain(kind, position.side()).is_dead_on(to) {
        return Err(Illegal::DeadDrop);
    }
    if is_second_pawn(position, kind, to) {
        return Err(Illegal::TwoPawns);
    }
    let next = drop_piece(position, kind, to);
    if in_check(&next, position.side()) {
        return Err(Illegal::KingLeft);
    }
    if is_stuck(&next, kind) {
        return Err(Illegal::PawnMate);
    }
    Ok(())
}

/// Whether the move is legal; else the first reason against it, in the order of [`Illegal`]. Takes
/// no memory.
///
/// The side not to move must not be in check, as it never is after legal moves. A king's drop is
/// `Occupied` or `NotInHand`. (Rules of shogi: movement, promotion, drops, two pawns, mate by a
/// dropped pawn.)
pub fn legal(position: &Position, by: Move) -> Result<(), Illegal>
    requires { IsQuiet position.now }
    ensures outcome { IsLegalOutcome position.now by result }

    // A legal move goes to another square, and drops no king.
    ensures has_text { OnOk result (HasText by) }
{
    match by {
        Move::Board { from, to, promote } => legal_board(position, from, to, promote),
        Move::Drop { kind, to } => legal_drop(position, kind, to),
    }
}
