// The lines of a round, as jobs that are done side by side.
ghost use Rattle.std.specs.Prelude.{◌<◌, ◌≤◌, IfOk, length};
ghost use Rattle.search_limits.specs.Settings.{settings_in};
ghost use Rattle.side_by_side.specs.Answers.{AreAnswers};
ghost use Rattle.cmd_collection.specs.Words.{collection_in};
ghost use Rattle.cmd_collection.specs.Inside.{IsReportedAt};

use crate::deciding::{Deciding, report_on};
use crate::{CollectionForm, Onlooker, Reported};
use problem_lines::Line;
use search_limits::Settings;
use search_pool::Table;
use side_by_side::{Jobs, Team, Until};
use std::alloc::{AllocError, Global};
use std::thread::Threads;

// Lines that are to be decided, with these settings and in this form, and what decides one of them.
#[derive(Drop)]
struct LineJobs<'b, 'a, F> {
    lines: &'b [Line<'a>],
    settings: &'b Settings,
    form: &'b CollectionForm,
    decide: F,
}

// The problem of each line is searched over the thread's table.
impl<'b, 'a, F: Fn(Global, &mut Table, usize) -> Result<Reported<'a>, AllocError> + Sync> Jobs
    for LineJobs<'b, 'a, F> {
    ghost use Rattle.std.specs.Prelude.{length};
    ghost use Rattle.cmd_collection.specs.Words.{collection_in};
    ghost use Rattle.search_limits.specs.Settings.{settings_in};
    ghost use Rattle.cmd_collection.specs.Inside.{CanDecide, IsReportedAt};

    type Tools = Table;

    type Answer = Reported<'a>;

    ghost is_ready = { λ jobs. CanDecide (settings_in jobs.settings.now) (collection_in jobs.form.now) jobs.lines.now (F.pre jobs.decide) (F.post jobs.decide) };

    ghost size = { λ jobs. length jobs.lines.now };

    ghost is_answer = { λ jobs number one. IsReportedAt (settings_in jobs.settings.now) (collection_in jobs.form.now) jobs.lines.now number one };

    fn count(&self) -> usize {
        self.lines.len()
    }

    fn tools(&self) -> Table {
        Table::new()
    }

    fn answer(
        &self,
        alloc: Global,
        tools: &mut Table,
        number: usize,
    ) -> Result<Reported<'a>, AllocError> {
        (self.decide)(alloc, tools, number)
    }
}

// What is told of the line of a number.
fn report_at<'a, O: Onlooker>(
    alloc: Global,
    table: &mut Table,
    deciding: &Deciding<'_, O>,
    lines: &[Line<'a>],
    number: usize,
) -> Result<Reported<'a>, AllocError>
    requires { number < length lines.now }
    ensures { IfOk result (IsReportedAt (settings_in deciding.now.settings.now)
        (collection_in deciding.now.form.now) lines.now number) }
{
    let line = lines[number];
    let report = report_on(alloc, table, &line, deciding)?;
    Ok(Reported { line, report })
}

/// The reports on the first of these lines, which a team makes side by side: as many as were begun
/// when it was over, and at least one where there are lines. Errors: want of memory alone.
pub(crate) fn reports_by<'a, R: Threads + Sync, O: Onlooker, U: Until>(
    rt: &R,
    alloc: Global,
    team: &mut Team<Table, Reported<'a>>,
    deciding: &Deciding<'_, O>,
    lines: &[Line<'a>],
    until: &U,
) -> Result<Vec<Reported<'a>>, AllocError>
    ensures first { IfOk result (λ all. length all.items ≤ length lines.now) }
    ensures some { IfOk result (λ all. 0 < length lines.now → 0 < length all.items) }
    ensures reports { IfOk result (λ all. AreAnswers (length all.items)
        (IsReportedAt (settings_in deciding.now.settings.now)
        (collection_in deciding.now.form.now) lines.now) all.items) }
{
    // A closure, since a method of an impl can't hand what is its own to a search that a thread
    // may run.
    let jobs = LineJobs {
        lines,
        settings: deciding.settings,
        form: deciding.form,
        decide: |alloc: Global, table: &mut Table, number: usize| -> Result<Reported, AllocError>
            requires { number < length lines.now }
            ensures { IfOk result (IsReportedAt (settings_in deciding.entry.now.settings.now)
                (collection_in deciding.entry.now.form.now) lines.entry.now number) }
        { report_at(alloc, table, deciding, lines, number) },
    };
    team.first_answers(rt, alloc, &jobs, until)
}
