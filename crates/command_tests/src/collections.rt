// Collections whose reports are known, over any number of threads.
use crate::lines::words_of;
use crate::same::same;
use cmd_collection::{Onlooker, Report, Reports, append_report};
use program_words::{Command, read_words};
use search_gate::OpenGate;
use std::alloc::{AllocError, Global};
use std::sync::Wait;
use std::sync::atomic::{AtomicU64, Ordering};
use std::test::Fail;
use std::thread::Threads;

const MATE: &str = "4k4/9/4P4/9/9/9/9/9/9 b G 1";

const ROOKS: &str = "9/4k4/8R/9/9/9/9/9/9 b R\tx";

const NONE: &str = "4k4/9/9/9/9/9/9/9/9 b -\r";

const FAULT: &str = "4k4/9/4X4/9/9/9/9/9/9 b G";

// One whose clock is 0.7 s later each time that it is asked, and who counts the rounds.
#[derive(Drop)]
struct Hurried {
    passed: AtomicU64,
    rounds: AtomicU64,
}

impl Hurried {
    fn new() -> Hurried {
        Hurried {
            passed: AtomicU64::new(0),
            rounds: AtomicU64::new(0),
        }
    }
}

impl Onlooker for Hurried {
    fn now(&self) -> u64 {
        self.passed.fetch_add(700, Ordering::SeqCst)
    }

    fn begin(&self, _lines: usize) {}

    fn begin_round(&self) {
        self.rounds.fetch_add(1, Ordering::SeqCst);
    }

    fn see(&self, _report: &Report) {}
}

// What is told of each line of a text, with the words of a command.
fn told<R: Threads + Wait + AllocGlobal + Sync>(
    rt: &R,
    line: &str,
    text: &str,
) -> Result<String, Fail> {
    told_before(rt, line, text, &OpenGate)
}

// The same, where this one looks on.
fn told_before<R: Threads + Wait + AllocGlobal + Sync, O: Onlooker>(
    rt: &R,
    line: &str,
    text: &str,
    onlooker: &O,
) -> Result<String, Fail> {
    let alloc = rt.alloc();
    let words = words_of(alloc, line)?;
    let mut out = Vec::new(alloc);
    let Ok(asked) = read_words(alloc, &words) else {
        return Ok(String::new(alloc));
    };
    if let Command::Collection(asked) = asked.command {
        let mut reports = Reports::new(rt, alloc, text.as_bytes(), &asked.settings, &asked.form)?;
        while let Some(reported) = reports.next(rt, alloc, onlooker)? {
            append_report(
                &mut out,
                reported.line.number,
                &reported.report,
                b"",
                asked.form.certificates,
            )?;
        }
    }
    Ok(String::from_utf8(out)?)
}

// A text of so many lines, and what is told of them: lines of these kinds in turn, and a fault in
// one place.
fn turns(alloc: Global, count: usize, fault: usize) -> Result<(String, String), AllocError> {
    let (mut text, mut told) = (String::new(alloc), String::new(alloc));
    for place in 0..count {
        let (line, ending) = if place == fault {
            (FAULT, "fault bad piece at 7")
        } else {
            match place % 3 {
                0 => (MATE, "mate G*5b"),
                1 => (ROOKS, "mate R*2b 5b4a 1c1a"),
                _ => (NONE, "nomate"),
            }
        };
        text.push_str(line)?;
        text.push_str("\n")?;
        told.push_str(format!(in alloc; "{} {ending}\n", place + 1)?.as_str())?;
    }
    Ok((text, told))
}

#[test]
fn any_number_of_threads_tells_the_same(rt: HostRuntime) -> Result<(), Fail> {
    // More lines than there are in a round of one or two threads.
    let (text, wanted) = turns(rt.alloc(), 70, 33)?;
    for threads in [" --threads 1", " --threads 2", " --threads 64", ""] {
        let line = format!(in rt.alloc(); "collection --rows 16 --room 100{threads}")?;
        let found = told(&rt, line.as_str(), text.as_str())?;
        same(&rt, line.as_str(), found.as_str(), wanted.as_str());
    }
    Ok(())
}

#[test]
fn a_round_that_the_clock_cuts_loses_no_line(rt: HostRuntime) -> Result<(), Fail> {
    let (text, wanted) = turns(rt.alloc(), 9, 4)?;
    let hurried = Hurried::new();
    let line = "collection --rows 16 --threads 1 --progress";
    let found = told_before(&rt, line, text.as_str(), &hurried)?;
    same(&rt, line, found.as_str(), wanted.as_str());
    same(
        &rt,
        "a line a round",
        hurried.rounds.load(Ordering::SeqCst),
        10,
    );
    Ok(())
}

#[test]
fn a_fault_in_any_place_is_told_there(rt: HostRuntime) -> Result<(), Fail> {
    for fault in 0..6 {
        let (text, wanted) = turns(rt.alloc(), 5, fault)?;
        let found = told(&rt, "collection --rows 16 --threads 2", text.as_str())?;
        same(&rt, fault, found.as_str(), wanted.as_str());
    }
    let found = told(&rt, "collection --threads 3", "\n# a\n")?;
    same(&rt, "no problem", found.as_str(), "");
    Ok(())
}
