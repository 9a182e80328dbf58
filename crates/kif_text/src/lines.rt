// What each line of a header says.
ghost use Rattle.std.specs.Prelude.{◌≡◌, ◌||◌, ◌∷◌, [], nat_eq, MatchOption, length, drop, true, false};
ghost use Rattle.std.specs.List.{starts_with};
ghost use Rattle.kif_text.specs.Lines.{begins, meaning, board_meaning, said, without_mark};

use board_core::Side;

// What a line says.
#[derive(Clone, Copy)]
pub enum Line<'a> {
    // Nothing that counts here: names and values, the frame, the numbers of the files, comments,
    // empty lines.
    Other,
    // That the game is a handicap game.
    Handicap,
    // A side's pieces in hand, behind the colon.
    InHand(Side, &'a str),
    // A row of the diagram, behind its bar.
    Row(&'a str),
    // Whose turn it is.
    Turn(Side),
}

/// Whether a line begins with a word. Takes no memory.
pub fn begins(line: &str, word: &str) -> bool
    ensures { result ≡ starts_with nat_eq line.now word.now }
{
    line.starts_with(word)
}

// Whether a line begins with one of two words.
fn begins_either(line: &str, word: &str, other: &str) -> bool
    ensures { result ≡ (starts_with nat_eq line.now word.now || starts_with nat_eq line.now
        other.now) }
{
    begins(line, word) || begins(line, other)
}

// What stands behind a word at the front of a line.
fn behind<'a>(line: &'a str, word: &str) -> Option<&'a str>
    ensures { MatchOption result (starts_with nat_eq line.now word.now
        ≡ false) (λ rest. (starts_with nat_eq line.now word.now ≡ true)
        × (rest.now ≡ drop (length word.now) line.now)) }
{
    line.strip_prefix(word)
}

fn board_line(line: &str) -> Line<'_>
    ensures { said result ≡ board_meaning line.now }
{
    if let Some(row) = behind(line, "|") {
        return Line::Row(row);
    }
    if begins_either(line, "後手番", "手番：後手") {
        return Line::Turn(Side::White);
    }
    if begins_either(line, "先手番", "手番：先手") {
        return Line::Turn(Side::Black);
    }
    Line::Other
}

// What a line says, by the first rule that fits.
pub fn line_of(line: &str) -> Line<'_>
    ensures { said result ≡ meaning line.now }
{
    if begins_either(line, "#", "*") {
        return Line::Other;
    }
    if begins_either(line, "上手", "下手") {
        return Line::Handicap;
    }
    if let Some(hand) = behind(line, "先手の持駒：") {
        return Line::InHand(Side::Black, hand);
    }
    if let Some(hand) = behind(line, "後手の持駒：") {
        return Line::InHand(Side::White, hand);
    }
    board_line(line)
}

/// A text without the byte-order mark in front. Takes no memory.
pub fn without_mark(text: &str) -> &str
    ensures { result.now ≡ without_mark text.now }
{
    behind(text, "\u{feff}").unwrap_or(text)
}
