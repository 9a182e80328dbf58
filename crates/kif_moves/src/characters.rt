// Characters as digits, files, rows and squares.
ghost use Rattle.std.specs.Prelude.{◌≡◌, ◌≤◌, IfSome};
ghost use Rattle.std.specs.Char.{is_ascii_digit};
ghost use Rattle.std.specs.Str.{chars};
ghost use Rattle.kif_moves.specs.Characters.{digit_of, file_of, row_of, square_of, is_space, past, is_over};
ghost use Rattle.kif_moves.specs.Steps.{last_number};

use board_core::Square;
use kif_text::{number_of, split_first};

fn digit_of(character: char) -> Option<u8>
    ensures digit { result ≡ digit_of character }
    ensures from { IfSome result (λ n. 1 ≤ n) }
    ensures to { IfSome result (λ n. n ≤ 9) }
{
    match character {
        '1' => Some(1),
        '2' => Some(2),
        '3' => Some(3),
        '4' => Some(4),
        '5' => Some(5),
        '6' => Some(6),
        '7' => Some(7),
        '8' => Some(8),
        '9' => Some(9),
        _ => None,
    }
}

fn file_of(character: char) -> Option<u8>
    ensures file { result ≡ file_of character }
    ensures from { IfSome result (λ n. 1 ≤ n) }
    ensures to { IfSome result (λ n. n ≤ 9) }
{
    match character {
        '１' => Some(1),
        '２' => Some(2),
        '３' => Some(3),
        '４' => Some(4),
        '５' => Some(5),
        '６' => Some(6),
        '７' => Some(7),
        '８' => Some(8),
        '９' => Some(9),
        _ => None,
    }
}

fn row_of(character: char) -> Option<u8>
    ensures row { result ≡ row_of character }
    ensures from { IfSome result (λ n. 1 ≤ n) }
    ensures to { IfSome result (λ n. n ≤ 9) }
{
    let number = number_of(character)?;
    if number <= 9 { Some(number) } else { None }
}

// The square that a full-width digit and a numeral name.
pub fn square_of(file: char, row: char) -> Option<Square>
    ensures { last_number result ≡ square_of (file_of file) (row_of row) }
{
    let file = file_of(file)?;
    let row = row_of(row)?;
    Some(Square::on(file, row))
}

// The square that two ASCII digits name.
pub fn square_of_digits(file: char, row: char) -> Option<Square>
    ensures { last_number result ≡ square_of (digit_of file) (digit_of row) }
{
    let file = digit_of(file)?;
    let row = digit_of(row)?;
    Some(Square::on(file, row))
}

// What stands behind the spaces in front.
pub fn past_spaces(text: &str) -> &str
    ensures { chars result.now ≡ past is_space (chars text.now) }
{
    let mut rest = text;
    while let Some((character, behind)) = split_first(rest) {
        if character != ' ' {
            return rest;
        }
        rest = behind;
    }
    rest
}

// What stands behind the digits in front.
pub fn past_digits(text: &str) -> &str
    ensures { chars result.now ≡ past is_ascii_digit (chars text.now) }
{
    let mut rest = text;
    while let Some((character, behind)) = split_first(rest) {
        if !character.is_ascii_digit() {
            return rest;
        }
        rest = behind;
    }
    rest
}

// Whether a word is over: the line ends, or a space comes.
pub fn is_over(text: &str) -> bool
    ensures { result ≡ is_over (chars text.now) }
{
    match split_first(text) {
        Some((character, _)) => character == ' ',
        None => true,
    }
}
