// The numbers of a position of which none are known.
ghost use Rattle.std.specs.Prelude.{◌≡◌, ◌≤◌, ◌+◌, ◌↔◌, ℕ, List, [], length, is_some};
ghost use Rattle.bit_boards.specs.declared.mask.Mask.{Mask};
ghost use Rattle.bit_boards.specs.declared.piece.Side.{Side};
ghost use Rattle.bit_boards.specs.Kind.{other};
ghost use Rattle.bit_boards.specs.Mask.{count};
ghost use Rattle.board_core.specs.declared.moves.Move.{Move};
ghost use Rattle.board_core.specs.Board.{piece_at};
ghost use Rattle.board_core.specs.Order.{Lists};
ghost use Rattle.shogi_rules.specs.Rules.{IsQuiet, IsLegal, after};
ghost use Rattle.shogi_rules.specs.Tsume.{IsCheck, IsEvasion};
ghost use Rattle.pn_numbers.specs.Numbers.{IsOpen};
ghost use Rattle.start_def.specs.Start.{destination, drops_of, AreReaching, proof_after_check, disproof_after_check, IsStartOfCheck, IsStartOfEvasion};

use attack_lines::count_attackers;
use board_core::{Move, Position, Side, Square};
use check_moves::count_checks;
use evasions::count_answers;
use pn_numbers::Numbers;
use shogi_rules::{Problem, apply};

// The square to which a move goes.
fn destination(by: Move) -> Square
    ensures { result.number ≡ destination by }
{
    match by {
        Move::Board { to, .. } | Move::Drop { to, .. } => to,
    }
}

// 1 for a drop, 0 for a move on the board.
fn drops_of(by: Move) -> u32
    ensures { result ≡ drops_of by }
{
    match by {
        Move::Board { .. } => 0,
        Move::Drop { .. } => 1,
    }
}

fn proof_after_check(answers: u32, attacking: u32, defending: u32) -> u32
    requires { answers ≤ 13770 }
    ensures proof { result ≡ proof_after_check answers attacking defending }
    ensures to { result ≤ 27543 }
{
    if answers == 0 {
        return 1;
    }
    let guarded = if attacking <= defending { 2 } else { 0 };
    let twice = if defending >= 2 { 1 } else { 0 };
    2 * answers + guarded + twice
}

fn disproof_after_check(attacking: u32, defending: u32, captures: bool) -> u32
    ensures disproof { result ≡ disproof_after_check attacking defending captures }
    ensures to { result ≤ 5 }
{
    if attacking <= defending {
        return 2;
    }
    if captures { 5 } else { 4 }
}

// How many pieces of the side reach the square.
fn reaching(position: &Position, to: Square, side: Side) -> u32
    ensures count { (squares : Mask) → AreReaching position.now side to.number squares → result
        ≡ count squares }
    ensures to { result ≤ 81 }
{
    u32::from(count_attackers(position, to, side))
}

// After a check.
fn start_of_check(problem: &Problem, position: &Position, by: Move) -> Numbers
    requires quiet { IsQuiet position.now }
    requires legal { IsLegal position.now by }
    ensures start { IsStartOfCheck problem.now.position.side position.now by result }
    ensures open { IsOpen result }
    ensures mate { (evasions : List Move)
        → Lists (IsEvasion problem.now.position.side (after position.now by)) evasions
        → (result.pn ≡ 1) ↔ (evasions ≡ []) }
{
    let answers = count_answers(problem, &apply(position, by));
    let (to, attacker) = (destination(by), problem.attacker());
    let attacking = reaching(position, to, attacker) + drops_of(by);
    let defending = reaching(position, to, attacker.other());
    let captures = position.piece_at(to).is_some();
    Numbers {
        pn: proof_after_check(answers, attacking, defending),
        dn: disproof_after_check(attacking, defending, captures),
    }
}

// After an evasion.
fn start_of_evasion(problem: &Problem, position: &Position, by: Move) -> Numbers
    requires quiet { IsQuiet position.now }
    requires legal { IsLegal position.now by }
    ensures start { IsStartOfEvasion problem.now.position.side position.now by result }
    ensures open { IsOpen result }
    ensures safe { (checks : List Move)
        → Lists (IsCheck problem.now.position.side (after position.now by)) checks
        → (result.dn ≡ 1) ↔ (checks ≡ []) }
{
    let checks = count_checks(problem, &apply(position, by));
    if checks == 0 {
        return Numbers { pn: 2, dn: 1 };
    }
    Numbers {
        pn: 2,
        dn: 2 * checks,
    }
}

/// The numbers with which the position after a move begins, as long as none are known of it: the
/// move is a check of the problem's attacker at the position, or an evasion of his defender. Takes
/// no memory.
///
/// After a check the proof number is two for each answer, drops on one square being one; two more
/// where no more pieces of the attacker than of the defender reach the square to which it went, and
/// one more where two of the defender's do. The disproof number is 2; where the attacker has more
/// pieces there, it is 4, and 5 where the check takes a piece. After an evasion the proof number is
/// 2, and the disproof number two for each check. A check that leaves no answer has the proof
/// number 1, an evasion that leaves no check the disproof number 1: so the search visits these
/// first, and one visit settles them.
///
/// A piece reaches a square as if nothing were pinned; the piece that moves and the king count, and
/// so does a piece that is dropped. The side not to move must not be in check. (In place of 1 and
/// 1, with which a search begins after Nagai 2002.)
pub fn start(problem: &Problem, position: &Position, by: Move) -> Numbers
    requires quiet { IsQuiet position.now }
    requires legal { IsLegal position.now by }
    ensures open { IsOpen result }
    ensures check { position.now.side ≡ problem.now.position.side
        → IsStartOfCheck problem.now.position.side position.now by result }
    ensures evasion { position.now.side ≡ other problem.now.position.side
        → IsStartOfEvasion problem.now.position.side position.now by result }

    // A check begins with the proof number 1 exactly where it leaves no evasion.
    ensures mate { position.now.side ≡ problem.now.position.side → (evasions : List Move)
        → Lists (IsEvasion problem.now.position.side (after position.now by)) evasions
        → (result.pn ≡ 1) ↔ (evasions ≡ []) }

    // An evasion begins with the disproof number 1 exactly where it leaves no check.
    ensures safe { position.now.side ≡ other problem.now.position.side → (checks : List Move)
        → Lists (IsCheck problem.now.position.side (after position.now by)) checks
        → (result.dn ≡ 1) ↔ (checks ≡ []) }
{
    if position.side() == problem.attacker() {
        return start_of_check(problem, position, by);
    }
    start_of_evasion(problem, position, by)
}
