// Cook reports: a checker of reports accepts what the searches found.
use crate::crews::quiet;
use crate::problems::{ALONE, GOLD, problem};
use crate::same::same;
use cook_report::{Word, check_report};
use cook_search::{Ground, cook};
use search_gate::OpenGate;
use search_limits::Settings;
use std::process::Abort;
use std::test::Fail;

// White attacks with two rooks, and mates in more ways than one.
const WHITE_ROOKS: &str = "9/9/9/9/9/9/r8/4K4/9 w r";

// A problem that 18 visits a search don't decide.
const HARD: &str = "1l7/9/9/1+S7/2k1r4/9/9/1+Ls3l2/9 b GSg";

#[test]
fn each_report_that_is_found_is_accepted(rt: HostRuntime) -> Result<(), Fail> {
    let alloc = rt.alloc();
    // The problem, its workers, the visits of a search, the report's word, and its lines.
    let rows = [
        (GOLD, 1, 4_000, Word::Sound, 7),
        (GOLD, 2, 4_000, Word::Sound, 7),
        (ALONE, 1, 4_000, Word::NoMate, 0),
        (WHITE_ROOKS, 1, 4_000, Word::Cooked, 22),
        (HARD, 1, 18, Word::Open, 12),
    ];
    for (text, workers, expansions, word, lines) in rows {
        let problem = problem(&rt, text);
        let settings = Settings::new(workers, expansions, 1_000_000, 4_096, 1);
        let ground = Ground {
            rt: &rt,
            problem: &problem,
            settings: &settings.expect(&rt, "settings"),
            gate: &OpenGate,
        };
        let (report, _) = cook(&ground, &mut quiet(alloc)?)?;
        let found = (
            report.word(),
            report.lines().len(),
            check_report(alloc, &problem, &report)?,
        );
        same(&rt, text, found, (word, lines, true));
    }
    Ok(())
}
