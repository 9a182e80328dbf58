// What a line says, read from its fields.
ghost use Rattle.std.specs.Prelude.{◌≡◌, ◌++◌, ◌↔◌, ◌∷◌, [], ℕ, List, Option, IsTrue, IfSome, IfNone};
ghost use Rattle.search_limits.specs.Sizes.{IsFromTo};
ghost use Rattle.search_limits.specs.declared.faults.Setting.{Setting};
ghost use Rattle.usi_session.specs.declared.command.TheConstants.{MOST_MILLIS};
ghost use Rattle.usi_session.specs.Fields.{fields_of, behind_field};
ghost use Rattle.usi_session.specs.Numbers.{Writes};
ghost use Rattle.usi_session.specs.Options.{setting_name};
ghost use Rattle.usi_session.specs.Commands.{GiveMoves, IsCommand, AsksForMate, IsOption, IsProtocolOption};
ghost use Rattle.usi_session.specs.Reading.{command_seen, IsWord, IsAlone, IsOptionRead, IsGoRead, IsStartRead, IsPlaceRead};

use crate::command::{Command, MOST_MILLIS, START, Word};
use crate::fields::{bare, first_field, has_field, is, up_to_moves};
use crate::numbers::number_of;
use search_limits::Setting;

fn word_of(field: &[u8]) -> Word
    ensures { IsWord field.now result }
{
    if is(field, b"usi") {
        return Word::Usi;
    }
    if is(field, b"isready") {
        return Word::IsReady;
    }
    if is(field, b"setoption") {
        return Word::SetOption;
    }
    if is(field, b"position") {
        return Word::Position;
    }
    if is(field, b"go") {
        return Word::Go;
    }
    if is(field, b"quit") {
        return Word::Quit;
    }
    Word::Other
}

// The command of a word behind which nothing may stand.
fn alone<'a>(rest: &'a [u8], command: Command<'a>) -> Command<'a>
    ensures { IsAlone (fields_of rest.now) command.entry result }
{
    if has_field(rest) {
        return Command::Nothing;
    }
    command
}

fn setting_of(name: &[u8]) -> Option<Setting>
    ensures found { IfSome result (λ setting. name.now ≡ setting_name setting) }
    ensures none { IfNone result ((setting : Setting) → name.now ≡ setting_name setting → ⊥) }
{
    if is(name, b"Workers") {
        return Some(Setting::Workers);
    }
    if is(name, b"Expansions") {
        return Some(Setting::Expansions);
    }
    if is(name, b"Room") {
        return Some(Setting::Room);
    }
    if is(name, b"Rows") {
        return Some(Setting::Rows);
    }
    if is(name, b"Shards") {
        return Some(Setting::Shards);
    }
    None
}

// What stands behind the first field of a text, where that is this word.
fn behind<'a>(text: &'a [u8], word: &[u8]) -> Option<&'a [u8]>
    ensures place { IfSome result (λ rest. rest.now ≡ behind_field text.now) }
    ensures found { IfSome result (λ rest. fields_of text.now ≡ word.now ∷ fields_of rest.now) }
    ensures none { IfNone result ((rest : List (List ℕ)) → fields_of text.now ≡ word.now ∷ rest
        → ⊥) }
{
    let (field, rest) = first_field(text)?;
    if !is(field, word) {
        return None;
    }
    Some(rest)
}

// The one field of a text.
fn only_field(text: &[u8]) -> Option<&[u8]>
    ensures found { IfSome result (λ field. fields_of text.now ≡ field.now ∷ []) }
    ensures none { IfNone result ((field : List ℕ) → fields_of text.now ≡ field ∷ [] → ⊥) }
{
    let (field, rest) = first_field(text)?;
    if has_field(rest) {
        return None;
    }
    Some(field)
}

// Whether `name` and a name of the protocol's own stand behind `setoption`.
fn is_protocol_option(rest: &[u8]) -> bool
    ensures { IsTrue result ↔ IsProtocolOption (fields_of rest.now) }
{
    let Some(rest) = behind(rest, b"name") else {
        return false;
    };
    let Some((name, _)) = first_field(rest) else {
        return false;
    };
    name.starts_with(b"USI_")
}

// The option and its number that stand behind `setoption`.
fn given_option(rest: &[u8]) -> Option<(Setting, u64)>
    ensures found { IfSome result (λ given. IsOption (fields_of rest.now) given.0 given.1) }
    ensures none { IfNone result ((setting : Setting) (number : ℕ)
        → ¬ IsOption (fields_of rest.now) setting number) }
{
    let rest = behind(rest, b"name")?;
    let (name, rest) = first_field(rest)?;
    let setting = setting_of(name)?;
    let rest = behind(rest, b"value")?;
    let number = number_of(only_field(rest)?)?;
    Some((setting, number))
}

fn option_of(rest: &[u8]) -> Command<'_>
    ensures { IsOptionRead (fields_of rest.now) (command_seen result) }
{
    if is_protocol_option(rest) {
        return Command::Nothing;
    }
    match given_option(rest) {
        Some((setting, number)) => Command::SetOption(setting, number),
        None => Command::BadOption,
    }
}

// The milliseconds that a field gives.
fn millis_of(field: &[u8]) -> Option<u64>
    ensures found { IfSome result (λ millis. Writes field.now millis
        × IsFromTo 1 MOST_MILLIS millis) }
    ensures none { IfNone result ((millis : ℕ) → Writes field.now millis
        → IsFromTo 1 MOST_MILLIS millis → ⊥) }
{
    let millis = number_of(field)?;
    if millis < 1 || millis > MOST_MILLIS {
        return None;
    }
    Some(millis)
}

// The limit of a question for a mate that stands behind `go`.
fn mate_of(rest: &[u8]) -> Option<Option<u64>>
    ensures found { IfSome result (λ millis. AsksForMate (fields_of rest.now) millis) }
    ensures none { IfNone result ((millis : Option ℕ) → ¬ AsksForMate (fields_of rest.now) millis) }
{
    let limit = only_field(behind(rest, b"mate")?)?;
    if is(limit, b"infinite") {
        return Some(None);
    }
    Some(Some(millis_of(limit)?))
}

fn go_of(rest: &[u8]) -> Command<'_>
    ensures { IsGoRead (fields_of rest.now) (command_seen result) }
{
    match mate_of(rest) {
        Some(millis) => Command::GoMate(millis),
        None => Command::OtherGo,
    }
}

// The moves behind `startpos`, where nothing else stands there.
fn moves_from_start(rest: &[u8]) -> Option<&[u8]>
    ensures found { IfSome result (λ moves. GiveMoves (fields_of rest.now)
        (fields_of moves.now)) }
    ensures none { IfNone result ((moves : List (List ℕ))
        → ¬ GiveMoves (fields_of rest.now) moves) }
{
    if !has_field(rest) {
        return Some(rest);
    }
    behind(rest, b"moves")
}

fn position_from_start(rest: &[u8]) -> Command<'_>
    ensures { IsStartRead (fields_of rest.now) (command_seen result) }
{
    match moves_from_start(rest) {
        Some(moves) => Command::Position(START, moves),
        None => Command::Nothing,
    }
}

fn place_of(rest: &[u8]) -> Command<'_>
    ensures { IsPlaceRead rest.now (command_seen result) }
{
    if let Some(rest) = behind(rest, b"startpos") {
        return position_from_start(rest);
    }
    let Some(rest) = behind(rest, b"sfen") else {
        return Command::Nothing;
    };
    let (sfen, moves) = up_to_moves(bare(rest));
    Command::Position(sfen, moves)
}

/// What a line says.
pub fn command_of(line: &[u8]) -> Command<'_>
    ensures { IsCommand line.now (command_seen result) }
{
    let Some((word, rest)) = first_field(line) else {
        return Command::Nothing;
    };
    match word_of(word) {
        Word::Usi => alone(rest, Command::Usi),
        Word::IsReady => alone(rest, Command::IsReady),
        Word::SetOption => option_of(rest),
        Word::Position => place_of(rest),
        Word::Go => go_of(rest),
        Word::Quit => alone(rest, Command::Quit),
        Word::Other => Command::Nothing,
    }
}
