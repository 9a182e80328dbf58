// The reports on the lines of a collection, one after another.
ghost use Rattle.std.specs.Prelude.{◌≡◌, ◌<◌, ◌++◌, [], IsTrue, All, IfOk, OnOk, MatchOption, drop, length, map, vec_len};
ghost use Rattle.cmd_collection.specs.Words.{collection_in};
ghost use Rattle.search_limits.specs.Settings.{settings_in};
ghost use Rattle.problem_lines.specs.Lines.{problem_lines, seen};
ghost use Rattle.cmd_collection.specs.ReportsView.{ReportsView, IsNext};
ghost use Rattle.cmd_collection.specs.Inside.{IsReportOn};

use crate::deciding::Deciding;
use crate::rounds::Rounds;
use crate::{CollectionForm, Onlooker, Report};
use problem_lines::{Line, Lines};
use search_limits::Settings;
use std::alloc::{AllocError, Global};
use std::collections::VecDeque;
use std::marker::Model;
use std::thread::Threads;

/// A line of a collection, and what is told of it.
#[derive(Drop)]
pub struct Reported<'a> {
    /// The line.
    pub line: Line<'a>,
    /// What is told of it: what the search of its problem came to, or why it holds none.
    pub report: Report,
}

/// Goes over the lines of a collection that hold problems, and gives what is told of each. The
/// problems of some lines are decided side by side by a team, each by a search of its own with one
/// worker; how many there are, as many as were begun within a second, changes no report (by tests;
/// no clause says it). Contracts see the settings, the form, and the lines that are
/// still to come.
#[derive(Drop)]
pub struct Reports<'a> {
    lines: Lines<'a>,
    // What was found ahead, in the order of the lines.
    ahead: VecDeque<Reported<'a>>,
    rounds: Rounds<'a>,
    settings: Settings,
    form: CollectionForm,
}

impl<'a> Model for Reports<'a> {
    ghost use Rattle.std.specs.Prelude.{◌++◌, All, map};
    ghost use Rattle.cmd_collection.specs.Words.{collection_in};
    ghost use Rattle.search_limits.specs.Settings.{settings_in};
    ghost use Rattle.problem_lines.specs.Lines.{seen};
    ghost use Rattle.cmd_collection.specs.ReportsView.{ReportsView};
    ghost use Rattle.cmd_collection.specs.Inside.{IsReportOn};

    ghost Value = { ReportsView };

    ghost view = { λ r. record { settings = settings_in r.settings; form = collection_in r.form; lines = map (λ one. seen one.line) r.ahead.items ++ r.lines } };

    ghost invariant = { λ r. All (λ one. IsReportOn (settings_in r.settings) (collection_in r.form) one.line one.report) r.ahead.items };
}

// The next lines, as many as there are up to this number, which is none only where there are none
// left.
fn stretch<'a>(
    alloc: Global,
    lines: &mut Lines<'a>,
    most: usize,
) -> Result<Vec<Line<'a>>, AllocError>
    requires { 0 < most }
    ensures parts { IfOk result (λ stretch. lines.old ≡ map seen stretch.items ++ lines.new) }
    ensures whole { IfOk result (λ stretch. stretch.items ≡ [] → lines.new ≡ []) }
{
    let mut stretch = Vec::new(alloc);
    for _ in 0..most {
        let Some(line) = lines.next() else {
            break;
        };
        stretch.push(line)?;
    }
    Ok(stretch)
}

// So many lines are no longer to come.
fn skip(lines: &mut Lines<'_>, count: usize)
    ensures { lines.new ≡ drop count lines.old }
{
    for _ in 0..count {
        let _ = lines.next();
    }
}

fn has_none(ahead: &VecDeque<Reported<'_>>) -> bool
    ensures none { IsTrue result → ahead.now.items ≡ [] }
    ensures some { ahead.now.items ≡ [] → IsTrue result }
{
    ahead.is_empty()
}

// Has reports ahead where none are: those on the next lines, where there are any left. What was
// looked at of the lines and isn't told yet is still to come.
fn refill<'a, R: Threads + Sync, O: Onlooker>(
    rt: &R,
    alloc: Global,
    lines: &mut Lines<'a>,
    ahead: &mut VecDeque<Reported<'a>>,
    rounds: &mut Rounds<'a>,
    deciding: &Deciding<'_, O>,
) -> Result<(), AllocError>
    requires { All (λ one. IsReportOn (settings_in deciding.now.settings.now)
        (collection_in deciding.now.form.now) one.line one.report) ahead.old.items }
    ensures reports { All
        (λ one. IsReportOn (settings_in deciding.now.settings.now)
        (collection_in deciding.now.form.now) one.line one.report) ahead.new.items }
    ensures same { OnOk result (map (λ one. seen one.line) ahead.old.items ++ lines.old
        ≡ map (λ one. seen one.line) ahead.new.items ++ lines.new) }
    ensures none { OnOk result (ahead.new.items ≡ [] → lines.new ≡ []) }
{
    if !has_none(ahead) {
        return Ok(());
    }
    let mut behind = lines.clone()?;
    let stretch = stretch(alloc, &mut behind, rounds.most())?;
    *ahead = rounds.decided(rt, alloc, deciding, &stretch)?;
    skip(lines, ahead.len());
    Ok(())
}

impl<'a> Reports<'a> {
    /// The reports on the lines of a text, made with these settings and in this form. Takes memory
    /// for each thread's place alone; the tables are made with the first problems. Errors: want of
    /// memory alone.
    pub fn new<R: Threads>(
        rt: &R,
        alloc: Global,
        text: &'a [u8],
        settings: &Settings,
        form: &CollectionForm,
    ) -> Result<Reports<'a>, AllocError>
        ensures { IfOk result (λ reports. reports
            ≡ record {
              settings = settings_in settings.now;
              form = collection_in form.now;
              lines =
                  problem_lines form.now.first text.now;
            }) }
    {
        Ok(Reports {
            lines: Lines::new(text, form.first),
            ahead: VecDeque::new(alloc),
            rounds: Rounds::new(rt, alloc, form)?,
            settings: *settings,
            form: *form,
        })
    }

    /// The next line that holds a problem, and what is told of it; none where there is none left.
    /// Who looks on is told of each line of a stretch, where the form says so. Takes memory for the
    /// reports on a stretch of lines, and for a table and notes for each thread. Errors: want of
    /// memory alone, and then nothing more is to be asked.
    pub fn next<R: Threads + Sync, O: Onlooker>(
        &mut self,
        rt: &R,
        alloc: Global,
        onlooker: &O,
    ) -> Result<Option<Reported<'a>>, AllocError>
        ensures { IfOk result (λ next. MatchOption next ((self.old.lines ≡ [])
            × (self.new ≡ self.old)) (λ one. IsNext self.old (seen one.line) one.report self.new)) }
    {
        let (settings, form) = (self.settings, self.form);
        let deciding = Deciding {
            settings: &settings,
            form: &form,
            onlooker,
        };
        refill(
            rt,
            alloc,
            &mut self.lines,
            &mut self.ahead,
            &mut self.rounds,
            &deciding,
        )?;
        Ok(self.ahead.pop_front())
    }
}
