// What is told of a line of a collection.
ghost use Rattle.std.specs.Prelude.{◌≡◌, Ok, Err, IfOk, MatchResult, None, Some};
ghost use Rattle.cmd_collection.specs.Words.{collection_in};
ghost use Rattle.search_limits.specs.Settings.{settings_in};
ghost use Rattle.cmd_collection.specs.ReportText.{HasReportLine};
ghost use Rattle.app_texts.specs.Texts.{HasLine};
ghost use Rattle.problem_lines.specs.Lines.{seen};
ghost use Rattle.problem_answers.specs.Reading.{StandsFor};
ghost use Rattle.cmd_collection.specs.Reports.{IsFoundIn, IsTrueReport, armed_for, line_form};

use crate::looker_clock::LookerClock;
use crate::{CollectionForm, LineFault, Onlooker, Report};
use app_texts::{ProblemFault, Solution};
use problem_answers::{read_problem, verdict};
use problem_lines::Line;
use search_gate::{DeadlineStop, OpenGate, QuietStop, Stop};
use search_limits::Settings;
use search_pool::{SearchEnd, Table};
use shogi_rules::Problem;
use std::alloc::{AllocError, Global};
use tsume_words::{Format, ProblemForm};

/// By what lines are decided: the numbers of each search, the form, and who looks on.
#[derive(Drop)]
pub(crate) struct Deciding<'b, O> {
    pub(crate) settings: &'b Settings,
    pub(crate) form: &'b CollectionForm,
    pub(crate) onlooker: &'b O,
}

// What a search alone finds of a problem, which nothing stops.
fn found_alone(
    alloc: Global,
    table: &mut Table,
    problem: &Problem,
    settings: &Settings,
) -> Result<Solution, AllocError>
    ensures found { IfOk result
        (IsFoundIn problem.now.position (settings_in settings.now) None) }
    ensures line { IfOk result HasLine }
{
    let mut stop = QuietStop::new();
    match table.search_until(alloc, problem, settings, &OpenGate, &mut stop)? {
        SearchEnd::Solved(note) => verdict(alloc, problem, &note),
        SearchEnd::Unknown(cause, crew) => Ok(Solution::Unknown(cause, crew)),
    }
}

// What a search finds of a problem that polls this stop, which is armed with the deadline.
fn found_until<T: Stop>(
    alloc: Global,
    table: &mut Table,
    problem: &Problem,
    settings: &Settings,
    deadline: u64,
    stop: &mut T,
) -> Result<Solution, AllocError>
    requires { T.signal stop.old ≡ armed_for deadline }
    ensures found { IfOk result
        (IsFoundIn problem.now.position (settings_in settings.now) (Some deadline)) }
    ensures line { IfOk result HasLine }
{
    match table.search_until(alloc, problem, settings, &OpenGate, stop)? {
        SearchEnd::Solved(note) => verdict(alloc, problem, &note),
        SearchEnd::Unknown(cause, crew) => Ok(Solution::Unknown(cause, crew)),
    }
}

// What is found of a problem, by a search that is stopped where there is a deadline and it passes:
// its stop is made and armed anew.
fn found<O: Onlooker>(
    alloc: Global,
    table: &mut Table,
    problem: &Problem,
    deciding: &Deciding<'_, O>,
) -> Result<Solution, AllocError>
    ensures found { IfOk result
        (IsFoundIn problem.now.position (settings_in deciding.now.settings.now)
        deciding.now.form.now.deadline) }
    ensures line { IfOk result HasLine }
{
    let Some(deadline) = deciding.form.deadline else {
        return found_alone(alloc, table, problem, deciding.settings);
    };
    let mut stop = DeadlineStop::new(LookerClock::new(deciding.onlooker));
    stop.arm(Some(deadline));
    found_until(
        alloc,
        table,
        problem,
        deciding.settings,
        deadline,
        &mut stop,
    )
}

// The problem of a line, or its first fault.
fn problem_of(line: &Line<'_>, form: &CollectionForm) -> Result<Problem, ProblemFault>
    ensures { MatchResult result
        (λ problem. StandsFor (line_form (collection_in form.now)) (seen line.now).content
        (Ok problem.position))
        (λ fault. StandsFor (line_form (collection_in form.now)) (seen line.now).content
        (Err fault)) }
{
    let form = ProblemForm {
        format: Format::Sfen,
        rest: form.rest,
    };
    read_problem(line.content, form)
}

/// What is told of a line: what a search finds of its problem, alone or till its deadline; or that
/// the line is too long; or its first fault. The table is emptied for it. Errors: want of memory
/// alone.
pub(crate) fn report_on<O: Onlooker>(
    alloc: Global,
    table: &mut Table,
    line: &Line<'_>,
    deciding: &Deciding<'_, O>,
) -> Result<Report, AllocError>
    ensures true_of { IfOk result
        (IsTrueReport (settings_in deciding.now.settings.now)
        (collection_in deciding.now.form.now) (seen line.now)) }
    ensures line { IfOk result HasReportLine }
{
    if line.is_too_long {
        return Ok(Report::Fault(LineFault::TooLong));
    }
    match problem_of(line, deciding.form) {
        Ok(problem) => Ok(Report::Solved(found(alloc, table, &problem, deciding)?)),
        Err(fault) => Ok(Report::Fault(LineFault::Problem(fault))),
    }
}
