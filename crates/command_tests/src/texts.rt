// Texts of answers and of reports.
ghost use Rattle.std.specs.Prelude.{IfOk, IfSome};
ghost use Rattle.usi_text.specs.Lines.{AllHaveText};
ghost use Rattle.cmd_collection.specs.ReportText.{HasReportLine};

use crate::same::same;
use app_texts::{Judgement, MainLine, ProblemFault, Solution, judgement_text, solution_text};
use cert_text::{Certificate, Claim, read_cert};
use cmd_collection::{Counts, LineFault, Report, append_report, counts_text};
use cmd_survey::{Summary, Tallies, summary_text};
use search_limits::Cause;
use search_pool::Tally;
use sfen_text::TextFault;
use std::alloc::{AllocError, Global};
use std::test::Fail;
use usi_text::read_move;
use worker_core::Crew;

// The certificate of two rooks' mate, and one of no mate.
const ROOKS: &str =
    "certificate 1 mate 4\nproblem 9/4k4/8R/9/9/9/9/9/9 b R\n1 1c1a 3k5/R8/8R/9/9/9/9/9/9 b -\n1 1c1a 4k4/R8/8R/9/9/9/9/9/9 b -\n1 1c1a 5k3/R8/8R/9/9/9/9/9/9 b -\n2 R*9b 9/4k4/8R/9/9/9/9/9/9 b R\nend\n";

const NONE: &str =
    "certificate 1 escape 3\nproblem 4k4/9/4P4/9/9/9/9/9/9 b P\n4k4/9/4P4/9/9/9/9/9/9 b P\n9/4k4/9/9/9/9/9/9/9 b Pp\n9/9/4k4/9/9/9/9/9/9 b 2p\nend\n";

#[test]
fn an_accepted_mate_and_each_cause_have_their_texts(rt: HostRuntime) -> Result<(), Fail> {
    let alloc = rt.alloc();
    let accepted = Judgement::Accepted {
        claim: Claim::Mate,
        entries: 4,
    };
    let text = String::from_utf8(judgement_text(alloc, &accepted)?)?;
    same(&rt, "accepted", text.as_str(), "accepted mate 4\n");
    let table = [
        (
            Cause::Expansions(7),
            "checkmate timeout\nunknown expansions 7\n",
        ),
        (Cause::Room(3), "checkmate timeout\nunknown room 3\n"),
        (
            Cause::Height(4096),
            "checkmate timeout\nunknown height 4096\n",
        ),
        (Cause::Stopped(1), "checkmate timeout\nunknown stopped\n"),
        (
            Cause::Entries(1_400_000),
            "checkmate timeout\nunknown entries 1400000\n",
        ),
    ];
    for (cause, wanted) in table {
        let crew = Crew::new(Vec::new(alloc));
        let solution = Solution::Unknown(cause, crew);
        let text = String::from_utf8(solution_text(alloc, &solution)?)?;
        same(&rt, cause, text.as_str(), wanted);
    }
    Ok(())
}

#[test]
fn a_survey_counts_how_its_problems_ended(rt: HostRuntime) -> Result<(), Fail> {
    let alloc = rt.alloc();
    let one = vec![in alloc; Tally::Mate]?;
    let six = vec![in alloc;
        Tally::NoMate,
        Tally::Unknown(Cause::Expansions(9)),
        Tally::NoMate,
        Tally::Mate,
        Tally::NoMate,
        Tally::Unknown(Cause::Room(2)),
    ]?;
    let one = Summary {
        seed: 0,
        tallies: Tallies::new(one),
    };
    let text = String::from_utf8(summary_text(alloc, &one)?)?;
    let wanted = "survey 0 1\nmate 1\nnomate 0\nunknown 0\n";
    same(&rt, "of one", text.as_str(), wanted);
    let six = Summary {
        seed: 1_000_000_000,
        tallies: Tallies::new(six),
    };
    let text = String::from_utf8(summary_text(alloc, &six)?)?;
    let wanted = "survey 1000000000 6\nmate 1\nnomate 3\nunknown 2\n";
    same(&rt, "of six", text.as_str(), wanted);
    Ok(())
}

// The main line of the two rooks' mate.
fn rooks_line(alloc: Global) -> Result<MainLine, AllocError>
    ensures { IfOk result (λ line. AllHaveText line) }
{
    let (Some(first), Some(second), Some(third)) = (
        read_move(b"R*2b"),
        read_move(b"5b4a"),
        read_move(b"1c1a"),
    ) else {
        return Ok(MainLine::new(Vec::new(alloc)));
    };
    Ok(MainLine::new(vec![in alloc; first, second, third]?))
}

// The verdict that this certificate proves, a mate with the two rooks' line.
fn verdict(alloc: Global, certificate: &str) -> Result<Option<Report>, AllocError>
    ensures { IfOk result (λ report. IfSome report HasReportLine) }
{
    let line = rooks_line(alloc)?;
    Ok(match read_cert(alloc, certificate.as_bytes()) {
        Ok(Certificate::Mate(mate)) => Some(Report::Solved(Solution::Mate(mate, line))),
        Ok(Certificate::Escape(none)) => Some(Report::Solved(Solution::NoMate(none))),
        Err(_) => None,
    })
}

// What is told of a line and its remark behind the text that stands there.
fn told(
    alloc: Global,
    before: &str,
    number: u64,
    report: &Report,
    remark: &str,
    certificates: bool,
) -> Result<String, Fail>
    requires { HasReportLine report.now }
{
    let mut text = Vec::new(alloc);
    text.extend_from_slice(before.as_bytes())?;
    append_report(&mut text, number, report, remark.as_bytes(), certificates)?;
    Ok(String::from_utf8(text)?)
}

#[test]
fn a_verdict_is_a_line_and_its_certificate(rt: HostRuntime) -> Result<(), Fail> {
    let alloc = rt.alloc();
    let table = [(ROOKS, "4 mate R*2b 5b4a 1c1a"), (NONE, "4 nomate")];
    for (certificate, line) in table {
        let report = verdict(alloc, certificate)?.expect(&rt, "a certificate");
        let text = told(alloc, "1 nomate\n", 4, &report, "", false)?;
        let wanted = format!(in alloc; "1 nomate\n{line}\n")?;
        same(&rt, line, text.as_str(), wanted.as_str());
        let text = told(alloc, "1 nomate\n", 4, &report, "\tA title\t2", true)?;
        let wanted = format!(in alloc; "1 nomate\n{line}\tA title\t2\n{certificate}")?;
        same(&rt, line, text.as_str(), wanted.as_str());
    }
    Ok(())
}

#[test]
fn a_line_without_a_verdict_says_why(rt: HostRuntime) -> Result<(), Fail> {
    let alloc = rt.alloc();
    let crew = Crew::new(Vec::new(alloc));
    let used_up = Report::Solved(Solution::Unknown(Cause::Expansions(100), crew));
    let bad = Report::Fault(LineFault::Problem(ProblemFault::Text(TextFault::BadPiece(7))));
    let long = Report::Fault(LineFault::TooLong);
    let text = told(alloc, "", 12, &used_up, "", true)?;
    same(&rt, "used up", text.as_str(), "12 unknown expansions 100\n");
    let text = told(alloc, "", 5, &bad, "\tx", true)?;
    same(&rt, "bad", text.as_str(), "5 fault bad piece at 7\tx\n");
    let text = told(alloc, "", 16_777_217, &long, "", false)?;
    same(&rt, "long", text.as_str(), "16777217 fault too long\n");
    Ok(())
}

#[test]
fn a_collection_counts_its_reports(rt: HostRuntime) -> Result<(), Fail> {
    let alloc = rt.alloc();
    let mut counts = Counts::none();
    let text = String::from_utf8(counts_text(alloc, &counts)?)?;
    let wanted = "problems 0 mate 0 nomate 0 unknown 0 fault 0\n";
    same(&rt, "no report", text.as_str(), wanted);
    let mate = verdict(alloc, ROOKS)?.expect(&rt, "a certificate");
    counts.add(&mate);
    counts.add(&mate);
    counts.add(&Report::Fault(LineFault::TooLong));
    let text = String::from_utf8(counts_text(alloc, &counts)?)?;
    let wanted = "problems 3 mate 2 nomate 0 unknown 0 fault 1\n";
    same(&rt, "three reports", text.as_str(), wanted);
    let none = verdict(alloc, NONE)?.expect(&rt, "a certificate");
    counts.add(&none);
    let crew = Crew::new(Vec::new(alloc));
    counts.add(&Report::Solved(Solution::Unknown(Cause::Room(1), crew)));
    let text = String::from_utf8(counts_text(alloc, &counts)?)?;
    let wanted = "problems 5 mate 2 nomate 1 unknown 1 fault 1\n";
    same(&rt, "five reports", text.as_str(), wanted);
    Ok(())
}
