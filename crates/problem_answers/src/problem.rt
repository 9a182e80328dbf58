// The problem that a text stands for.
ghost use Rattle.std.specs.Prelude.{◌≡◌, Ok, Err, IfOk, MatchResult};
ghost use Rattle.board_core.specs.Board.{HasDefender};
ghost use Rattle.problem_answers.specs.Reading.{IsPositionRead, OneReading, StandsFor, searched_board};

use app_texts::ProblemFault;
use board_core::Position;
use kif_text::{kif_laws, read_kif};
use sfen_text::{read_sfen, sfen_laws};
use shogi_rules::{Problem, accept_problem};
use tsume_words::{Format, ProblemForm};

// The position of a text in this format, or its first fault. The side that isn't to move has a
// king.
fn read_position(input: &[u8], format: Format) -> Result<Position, ProblemFault>
    ensures exact { IsPositionRead format input.now result }
    ensures defender { IfOk result HasDefender }
{
    match format {
        Format::Sfen => Ok(read_sfen(input)?),
        Format::Kif => Ok(read_kif(input)?),
    }
}

// The position that is searched: the one that was read, with the rest of the pieces in the
// defender's hand where that is asked for.
fn searched_position(position: Position, rest: bool) -> Position
    ensures { result ≡ searched_board rest position }
{
    if rest {
        board_core::rest(&position)
    } else {
        position
    }
}

/// The problem that the bytes of a text stand for in this form, an SFEN or the diagram of a KIF
/// file, or their first fault: of the text, then of the position, then that the side that isn't to
/// move is in check. What follows the reading of the position is the same in all formats. Takes no
/// memory.
pub fn read_problem(input: &[u8], form: ProblemForm) -> Result<Problem, ProblemFault>
    ensures { MatchResult result (λ problem. StandsFor form input.now (Ok problem.position))
        (λ fault. StandsFor form input.now (Err fault)) }
{
    let position = read_position(input, form.format)?;
    match accept_problem(searched_position(position, form.rest)) {
        Ok(problem) => Ok(problem),
        Err(_) => Err(ProblemFault::DefenderInCheck),
    }
}

/// No text stands for two problems in one form, for a problem where it has a fault, or has two
/// first faults. It does nothing.
pub fn problem_laws()
    ensures { OneReading }
{
    sfen_laws();
    kif_laws();
}
