// A session.
ghost use Rattle.std.specs.Prelude.{◌≡◌, ℕ, IfOk, IfSome, OnErr, Option};
ghost use Rattle.search_limits.specs.declared.faults.Setting.{Setting};
ghost use Rattle.search_limits.specs.Sizes.{AreSound};
ghost use Rattle.shogi_rules.specs.Tsume.{IsProblem};
ghost use Rattle.usi_session.specs.Options.{numbers_by, with_option};
ghost use Rattle.usi_session.specs.Fields.{fields_of};
ghost use Rattle.usi_session.specs.Sessions.{DoesAt, IsAct, TakesOptions, first_session};
ghost use Rattle.usi_session.specs.Commands.{SetOption, Position, GoMate};
ghost use Rattle.usi_session.specs.Laws.{HasAct};
ghost use Rattle.usi_session.specs.Reading.{command_seen, DoesSome, HasOutcome, IsPositionTold};
ghost use Rattle.usi_session.specs.Seen.{act_seen, IsFit};

use crate::command::Command;
use crate::fields::without_return;
use crate::options::Options;
use crate::playing::{first_problem, problem_after};
use crate::reading::command_of;
use crate::texts::{line, moves_refusal, names, sfen_refusal};
use crate::{Act, Solve};
use search_limits::{Setting, power_laws};
use shogi_rules::Problem;
use std::alloc::{AllocError, Global};
use std::marker::Model;

/// A mate session of the USI protocol. Contracts see the position of its problem, where it has one,
/// and its options.
#[derive(Drop)]
pub struct Session {
    problem: Option<Problem>,
    options: Options,
}

impl Model for Session {
    ghost use Rattle.std.specs.Prelude.{option_map};
    ghost use Rattle.usi_session.specs.Sessions.{SessionView};
    ghost use Rattle.usi_session.specs.Seen.{options_in};

    ghost Value = { SessionView };

    ghost view = { λ s. record { problem = option_map (λ p. p.position) s.problem; options = options_in s.options } };
}

impl Session {
    /// A session before its first line: it has no problem; one worker, as many visits and notes as
    /// a search may have, 65,536 rows, and no word of the shards. Takes no memory.
    pub fn make() -> Session
        ensures { result ≡ first_session }
    {
        Session {
            problem: None,
            options: Options::first(),
        }
    }

    /// A law: what every session keeps. Its problem, where it has one, is one: the side that isn't
    /// to move has a king and isn't in check. Its options make the settings of a search. Does
    /// nothing; whoever speaks of what a session keeps calls it to know this.
    pub fn laws(&self)
        ensures problem { IfSome self.now.problem IsProblem }
        ensures options { AreSound (numbers_by self.now.options) }
    {
        // A number has one bit exactly where it is a power of two.
        power_laws();
        let _problem = &self.problem;
    }

    /// What the session does at a line, which comes without its line feed (USI protocol: `usi`,
    /// `isready`, `setoption`, `position`, `go mate`, `quit`; any other line is nothing). A
    /// carriage return at its end doesn't count. Errors: want of memory alone; then the session is
    /// as it was.
    pub fn line(&mut self, alloc: Global, line: &[u8]) -> Result<Act, AllocError>
        ensures act { IfOk result (λ act. IsAct self.old line.now (act_seen act) self.new) }
        ensures err { OnErr result (self.new ≡ self.old) }

        // There is something to be done at each line, even where memory is wanting.
        ensures some { HasAct self.old line.now }

        // What is to be solved is a problem, and the numbers make settings.
        ensures fit { IfOk result IsFit }
    {
        // A number has one bit exactly where it is a power of two.
        power_laws();
        self.serve(alloc, command_of(without_return(line)))
    }

    fn serve(&mut self, alloc: Global, command: Command<'_>) -> Result<Act, AllocError>
        ensures act { IfOk result (λ act. DoesAt self.old (command_seen command.entry) (act_seen act) self.new) }
        ensures err { OnErr result (self.new ≡ self.old) }
        ensures some { OnErr result (DoesSome self.old (command_seen command.entry)) }
    {
        match command {
            Command::Usi => Ok(Act::Say(names(alloc)?)),
            Command::IsReady => Ok(Act::Say(line(alloc, b"readyok")?)),
            Command::SetOption(setting, number) => self.set_option(alloc, setting, number),
            Command::BadOption => Ok(Act::Say(line(alloc, b"info string bad option")?)),
            Command::Position(sfen, moves) => self.set_position(alloc, sfen, moves),
            Command::GoMate(millis) => self.mate(alloc, millis),
            Command::OtherGo => Ok(Act::Say(line(alloc, b"info string only go mate")?)),
            Command::Quit => Ok(Act::Quit),
            Command::Nothing => Ok(Act::Nothing),
        }
    }

    fn set_option(
        &mut self,
        alloc: Global,
        setting: Setting,
        number: u64,
    ) -> Result<Act, AllocError>
        ensures act { IfOk result (λ act. TakesOptions (with_option setting number self.old.options)
            self.old (act_seen act) self.new) }
        ensures err { OnErr result (self.new ≡ self.old) }
        ensures some { OnErr result (DoesSome self.old (SetOption setting number)) }
    {
        match self.options.with(setting, number) {
            Some(options) => {
                self.options = options;
                Ok(Act::Nothing)
            }
            None => Ok(Act::Say(line(alloc, b"info string bad option")?)),
        }
    }

    fn set_position(&mut self, alloc: Global, sfen: &[u8], moves: &[u8]) -> Result<Act, AllocError>
        ensures act { IfOk result (λ act. DoesAt self.old
            (Position sfen.now (fields_of moves.now)) (act_seen act) self.new) }
        ensures err { OnErr result (self.new ≡ self.old) }
        ensures some { OnErr result (DoesSome self.old (Position sfen.now (fields_of moves.now))) }
    {
        let outcome = position_of(alloc, sfen, moves)?;
        match outcome {
            Ok(problem) => {
                self.problem = Some(problem);
                Ok(Act::Nothing)
            }
            Err(line) => {
                self.problem = None;
                Ok(Act::Say(line))
            }
        }
    }

    fn mate(&self, alloc: Global, millis: Option<u64>) -> Result<Act, AllocError>
        ensures { IfOk result (λ act. DoesAt self.now (GoMate millis) (act_seen act) self.now) }
    {
        match &self.problem {
            Some(problem) => Ok(Act::Solve(Solve {
                problem: *problem,
                settings: self.options.settings,
                millis,
            })),
            None => Ok(Act::Say(line(alloc, b"checkmate notimplemented")?)),
        }
    }
}

// The problem that an SFEN and the moves of a text come to; or the line that says why there is
// none. Errors: want of memory alone.
fn position_of(
    alloc: Global,
    sfen: &[u8],
    moves: &[u8],
) -> Result<Result<Problem, Vec<u8>>, AllocError>
    ensures told { IfOk result (λ outcome. IsPositionTold sfen.now (fields_of moves.now) outcome) }
    ensures some { OnErr result (HasOutcome sfen.now (fields_of moves.now)) }
{
    let first = match first_problem(sfen) {
        Ok(first) => first,
        Err(fault) => return Ok(Err(sfen_refusal(alloc, fault)?)),
    };
    match problem_after(&first, moves) {
        Ok(problem) => Ok(Ok(problem)),
        Err(fault) => Ok(Err(moves_refusal(alloc, fault)?)),
    }
}
