// The lines that a session says.
ghost use Rattle.std.specs.Prelude.{◌≡◌, ◌++◌, ◌∷◌, IfOk, OnOk, codes};
ghost use Rattle.std.specs.Fmt.{decimal};
ghost use Rattle.search_limits.specs.declared.faults.Setting.{Setting};
ghost use Rattle.usi_session.specs.Options.{first_options, numbers_by, setting_name, number_in, least_of, most_of};
ghost use Rattle.usi_session.specs.Texts.{ended, names_text, option_line, options_text, refusal_text, told};
ghost use Rattle.sfen_text.specs.FaultText.{fault_text};
ghost use Rattle.usi_session.specs.Reading.{moves_refusal, sfen_refusal};

use crate::options::Options;
use crate::position::{MovesFault, SfenFault};
use itoa::Buffer;
use search_limits::{
    LEAST_ROWS, MOST_EXPANSIONS, MOST_ROOM, MOST_ROWS, MOST_SHARDS, MOST_WORKERS, Setting,
};
use sfen_text::TextFault;
use std::alloc::{AllocError, Global};

/// A line with its line feed. Errors: want of memory alone.
pub fn line(alloc: Global, text: &[u8]) -> Result<Vec<u8>, AllocError>
    ensures { IfOk result (λ line. line.items ≡ ended text.now) }
{
    let mut line = Vec::new(alloc);
    put_line(&mut line, text)?;
    Ok(line)
}

fn put_line(out: &mut Vec<u8>, text: &[u8]) -> Result<(), AllocError>
    ensures { OnOk result (out.new.items ≡ out.old.items ++ ended text.now) }
{
    out.extend_from_slice(text)?;
    out.push(b'\n')?;
    Ok(())
}

fn put_number(out: &mut Vec<u8>, number: u64) -> Result<(), AllocError>
    ensures { OnOk result (out.new.items ≡ out.old.items ++ decimal number) }
{
    out.extend_from_slice(Buffer::new().format(number).as_bytes())
}

// Puts words, and a number behind them.
fn put_numbered(out: &mut Vec<u8>, words: &[u8], number: u64) -> Result<(), AllocError>
    ensures { OnOk result (out.new.items ≡ out.old.items ++ (words.now ++ decimal number)) }
{
    out.extend_from_slice(words)?;
    put_number(out, number)
}

fn name_of(setting: Setting) -> &'static [u8]
    ensures { result.now ≡ setting_name setting }
{
    match setting {
        Setting::Workers => b"Workers",
        Setting::Expansions => b"Expansions",
        Setting::Room => b"Room",
        Setting::Rows => b"Rows",
        Setting::Shards => b"Shards",
    }
}

fn first_number(setting: Setting) -> u64
    ensures { result ≡ number_in (numbers_by first_options) setting }
{
    let first = Options::first().settings;
    match setting {
        Setting::Workers => u64::from(first.workers),
        Setting::Expansions => first.expansions,
        Setting::Room => u64::from(first.room),
        Setting::Rows => first.rows,
        Setting::Shards => first.shards,
    }
}

fn least_of(setting: Setting) -> u64
    ensures { result ≡ least_of setting }
{
    match setting {
        Setting::Rows => LEAST_ROWS,
        _ => 1,
    }
}

fn most_of(setting: Setting) -> u64
    ensures { result ≡ most_of setting }
{
    match setting {
        Setting::Workers => u64::from(MOST_WORKERS),
        Setting::Expansions => MOST_EXPANSIONS,
        Setting::Room => u64::from(MOST_ROOM),
        Setting::Rows => MOST_ROWS,
        Setting::Shards => MOST_SHARDS,
    }
}

#[tactic(auto, unfolding(crate::specs::Texts::option_line))]
fn put_option(out: &mut Vec<u8>, setting: Setting) -> Result<(), AllocError>
    ensures { OnOk result (out.new.items ≡ out.old.items ++ option_line setting) }
{
    out.extend_from_slice(b"option name ")?;
    out.extend_from_slice(name_of(setting))?;
    put_numbered(out, b" type spin default ", first_number(setting))?;
    put_numbered(out, b" min ", least_of(setting))?;
    put_numbered(out, b" max ", most_of(setting))?;
    out.push(b'\n')?;
    Ok(())
}

fn put_options(out: &mut Vec<u8>) -> Result<(), AllocError>
    ensures { OnOk result (out.new.items ≡ out.old.items ++ options_text) }
{
    put_option(out, Setting::Workers)?;
    put_option(out, Setting::Expansions)?;
    put_option(out, Setting::Room)?;
    put_option(out, Setting::Rows)?;
    put_option(out, Setting::Shards)
}

/// Who the program is, its options, and that this is all. Errors: want of memory alone.
pub fn names(alloc: Global) -> Result<Vec<u8>, AllocError>
    ensures { IfOk result (λ text. text.items ≡ names_text) }
{
    let mut text = Vec::new(alloc);
    put_line(&mut text, b"id name tsume")?;
    put_line(&mut text, b"id author tsume")?;
    put_options(&mut text)?;
    put_line(&mut text, b"usiok")?;
    Ok(text)
}

fn put_illegal(out: &mut Vec<u8>, number: u64, text: &[u8]) -> Result<(), AllocError>
    ensures { OnOk result (out.new.items
        ≡ out.old.items ++ (codes "illegal move " ++ decimal number ++ 32 ∷ text.now)) }
{
    put_numbered(out, b"illegal move ", number)?;
    out.push(b' ')?;
    out.extend_from_slice(text)?;
    Ok(())
}

fn put_fault(alloc: Global, out: &mut Vec<u8>, fault: TextFault) -> Result<(), AllocError>
    ensures { OnOk result (out.new.items ≡ out.old.items ++ fault_text fault) }
{
    let text = format!(in alloc; "{fault}")?;
    out.extend_from_slice(text.as_bytes())
}

// A line for the reader. Errors: want of memory alone.
fn begun(alloc: Global) -> Result<Vec<u8>, AllocError>
    ensures { IfOk result (λ line. line.items ≡ codes "info string ") }
{
    let mut line = Vec::new(alloc);
    line.extend_from_slice(b"info string ")?;
    Ok(line)
}

/// What is wrong with an SFEN. Errors: want of memory alone.
pub fn sfen_refusal(alloc: Global, fault: SfenFault) -> Result<Vec<u8>, AllocError>
    ensures { IfOk result (λ line. line.items ≡ told (refusal_text (sfen_refusal fault))) }
{
    let mut line = begun(alloc)?;
    match fault {
        SfenFault::BadSfen(fault) => put_fault(alloc, &mut line, fault)?,
        SfenFault::DefenderInCheck => line.extend_from_slice(b"defender in check")?,
    }
    line.push(b'\n')?;
    Ok(line)
}

/// What is wrong with the moves behind a position. Errors: want of memory alone.
pub fn moves_refusal(alloc: Global, fault: MovesFault<'_>) -> Result<Vec<u8>, AllocError>
    ensures { IfOk result (λ line. line.items ≡ told (refusal_text (moves_refusal fault.entry))) }
{
    let mut line = begun(alloc)?;
    match fault {
        MovesFault::IllegalMove(number, text) => put_illegal(&mut line, number, text)?,
        MovesFault::NoDefenderKing => line.extend_from_slice(b"no defender king")?,
    }
    line.push(b'\n')?;
    Ok(line)
}
