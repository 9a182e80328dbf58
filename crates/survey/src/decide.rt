// One problem.
ghost use Rattle.std.specs.Prelude.{◌≡◌, ◌≤◌, IfOk};
ghost use Rattle.notes.specs.Derivation.{conclusion_of};
ghost use Rattle.search_limits.specs.Settings.{settings_in};
ghost use Rattle.search_limits.specs.declared.expansions.TheConstants.{MOST_EXPANSIONS};
ghost use Rattle.visit_log.specs.Frame.{task_for};
ghost use Rattle.visit_log.specs.Sound.{IsAnswer};
ghost use Rattle.survey.specs.Tally.{tally_by, IsTrueOf, ComesTo, survey_settings};

use mate_def::escape_is_no_mate;
use notes::{Conclusion, Note};
use search_limits::{MOST_ROOM, Settings};
use search_pool::{SearchEnd, Table, Tally};
use shogi_rules::Problem;
use std::alloc::{AllocError, Global};

fn settings(expansions: u64) -> Settings
    requires from { 1 ≤ expansions }
    requires to { expansions ≤ MOST_EXPANSIONS }
    ensures { settings_in result ≡ survey_settings expansions }
{
    Settings {
        workers: 1,
        expansions,
        room: MOST_ROOM,
        rows: 1024,
        shards: 1,
        lends: true,
    }
}

// What a note says that answers the problem.
fn verdict(problem: &Problem, note: &Note) -> Tally
    requires { IsAnswer (task_for problem.now.position 1) note.now }
    ensures told { result ≡ tally_by (conclusion_of note.now) }
    ensures is_true { IsTrueOf problem.now.position result }
{
    note.laws();
    escape_is_no_mate();
    match note.conclusion() {
        Conclusion::Mate => Tally::Mate,
        Conclusion::Escape => Tally::NoMate,
    }
}

/// What the search of a problem comes to with one worker and so many visits, over a table that is
/// emptied for it; its first search makes it, of about 1 MB. Errors: want of memory alone.
pub(crate) fn decide(
    alloc: Global,
    table: &mut Table,
    problem: &Problem,
    expansions: u64,
) -> Result<Tally, AllocError>
    requires from { 1 ≤ expansions }
    requires to { expansions ≤ MOST_EXPANSIONS }
    ensures { IfOk result (ComesTo problem.now.position (survey_settings expansions)) }
{
    match table.search(alloc, problem, &settings(expansions))? {
        SearchEnd::Solved(note) => Ok(verdict(problem, &note)),
        SearchEnd::Unknown(cause, _) => Ok(Tally::Unknown(cause)),
    }
}
