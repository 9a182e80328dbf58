// How many problems of a collection ended in which way.
ghost use Rattle.std.specs.Prelude.{◌+◌, ◌<◌, ◌^◌};

use crate::Report;
use app_texts::Solution;
use run_telling::Status;

/// How many problems of a collection ended in which way; together fewer than 2^64.
#[derive(Clone, Copy, PartialEq, Eq, Debug)]
pub struct Counts {
    /// Mates.
    pub mates: u64,
    /// Problems that have no mate.
    pub no_mates: u64,
    /// Problems of which neither was found.
    pub unknowns: u64,
    /// Lines that are no problem.
    pub faults: u64,
    pub ghost countable: { mates + no_mates + unknowns + faults < 2 ^ 64 },
}

impl Counts {
    ghost use Rattle.std.specs.Prelude.{◌≡◌, List, [], ◌∷◌, ◌++◌, length};
    ghost use Rattle.cmd_collection.specs.Counts.{AreCountsOf, IsCounted, problems_of};
    ghost use Rattle.cmd_collection.specs.declared.report.Report.{Report};

    /// Nothing is counted yet.
    pub fn none() -> Counts
        ensures problems { problems_of result ≡ 0 }
        ensures counts { AreCountsOf [] result }
    {
        Counts {
            mates: 0,
            no_mates: 0,
            unknowns: 0,
            faults: 0,
        }
    }

    /// All problems that were counted.
    pub fn problems(&self) -> u64
        ensures sum { result ≡ problems_of self.now }
        // Each report is counted once, so it is how many there are.
        ensures all { (reports : List Report) → AreCountsOf reports self.now → result
            ≡ length reports }
    {
        self.mates + self.no_mates + self.unknowns + self.faults
    }

    /// Counts one more: what is told of its line.
    pub fn add(&mut self, report: &Report)
        requires { problems_of self.old + 1 < 2 ^ 64 }
        // The count that the report tells is one higher, and the others stay.
        ensures one { IsCounted report.now self.old self.new }
        ensures problems { problems_of self.new ≡ problems_of self.old + 1 }
        // So they stay the counts of all reports so far.
        ensures counts { (reports : List Report) → AreCountsOf reports self.old
            → AreCountsOf (reports ++ report.now ∷ []) self.new }
    {
        match report {
            Report::Solved(Solution::Mate(_, _)) => self.mates += 1,
            Report::Solved(Solution::NoMate(_)) => self.no_mates += 1,
            Report::Solved(Solution::Unknown(_, _)) => self.unknowns += 1,
            Report::Fault(_) => self.faults += 1,
        }
    }
}

impl Status for Counts {
    ghost use Rattle.cmd_collection.specs.Counts.{counts_status};

    ghost status_of = { counts_status };

    /// 3 where a line is no problem; else 1 where a search gave up; else 0.
    fn status(&self) -> u8 {
        if self.faults > 0 {
            return 3;
        }
        if self.unknowns > 0 { 1 } else { 0 }
    }
}
