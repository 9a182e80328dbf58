// What is told of the lines of a collection that tell a verdict.
ghost use Rattle.std.specs.Prelude.{◌≡◌};
ghost use Rattle.cmd_certificates.specs.Judged.{is_accepted, is_fault, is_refused, seen};

use cert_check::Why;
use cert_text::{CertFault, Claim};
use run_telling::Status;
use std::marker::Model;

/// What was found of the certificate behind a line that tells a verdict.
#[derive(Clone, Copy, PartialEq, Eq, Debug)]
pub enum LineJudgement {
    /// It is valid for its own problem, and claims what the line tells.
    Accepted {
        /// What it claims of its problem, and so what holds of it.
        claim: Claim,
        /// The number of its entries.
        entries: u64,
    },
    /// It claims what the line tells, and isn't valid.
    Refused {
        /// The first entry that something speaks against, counted from 1; 0 for the certificate as
        /// a whole.
        entry: u64,
        /// The first reason against it.
        why: Why,
    },
    /// It is no certificate: the first fault of its text; or it claims another verdict than the
    /// line tells: then its head is at fault.
    Fault(CertFault),
}

/// A line that tells a verdict, and what was found of the certificate behind it.
#[derive(Drop)]
pub struct JudgedLine {
    /// The number of the problem's line, as it is written: digits.
    pub number: Vec<u8>,
    /// What was found.
    pub told: LineJudgement,
}

/// What was found of all lines of a text that tell a verdict, in their order. Contracts see the
/// lines.
#[derive(Drop)]
pub struct CollectionJudgement {
    lines: Vec<JudgedLine>,
}

impl Model for CollectionJudgement {
    ghost use Rattle.std.specs.Prelude.{List, map};
    ghost use Rattle.cmd_certificates.specs.Judged.{JudgedView, seen};

    ghost Value = { List JudgedView };

    ghost view = { λ judged. map seen judged.lines.items };
}

fn is_accepted(line: &JudgedLine) -> bool
    ensures { result ≡ is_accepted (seen line.now) }
{
    match line.told {
        LineJudgement::Accepted { .. } => true,
        LineJudgement::Refused { .. } | LineJudgement::Fault(_) => false,
    }
}

fn is_refused(line: &JudgedLine) -> bool
    ensures { result ≡ is_refused (seen line.now) }
{
    match line.told {
        LineJudgement::Refused { .. } => true,
        LineJudgement::Accepted { .. } | LineJudgement::Fault(_) => false,
    }
}

fn is_fault(line: &JudgedLine) -> bool
    ensures { result ≡ is_fault (seen line.now) }
{
    match line.told {
        LineJudgement::Fault(_) => true,
        LineJudgement::Accepted { .. } | LineJudgement::Refused { .. } => false,
    }
}

impl CollectionJudgement {
    ghost use Rattle.std.specs.Prelude.{◌≡◌, count_by, length, map};
    ghost use Rattle.cmd_certificates.specs.Judged.{is_accepted, is_fault, is_refused, seen};

    /// The judgement of these lines.
    pub fn new(lines: Vec<JudgedLine>) -> CollectionJudgement
        ensures { result ≡ map seen lines.items }
    {
        CollectionJudgement { lines }
    }

    /// Its lines, in order.
    pub fn lines(&self) -> &[JudgedLine]
        ensures { map seen result.now ≡ self.now }
    {
        &self.lines
    }

    /// How many lines there are.
    pub fn count(&self) -> u64
        ensures { result ≡ length self.now }
    {
        self.lines.len() as u64
    }

    /// How many certificates were accepted.
    pub fn accepted(&self) -> u64
        ensures { result ≡ count_by is_accepted self.now }
    {
        self.lines.iter().filter(|line| is_accepted(line)).count() as u64
    }

    /// How many certificates were refused.
    pub fn refused(&self) -> u64
        ensures { result ≡ count_by is_refused self.now }
    {
        self.lines.iter().filter(|line| is_refused(line)).count() as u64
    }

    /// Behind how many lines there is a fault.
    pub fn faults(&self) -> u64
        ensures { result ≡ count_by is_fault self.now }
    {
        self.lines.iter().filter(|line| is_fault(line)).count() as u64
    }
}

impl Status for CollectionJudgement {
    ghost use Rattle.cmd_certificates.specs.Judged.{judged_status};

    ghost status_of = { judged_status };

    /// 7 where a certificate is refused; else 3 where there is a fault; else 0.
    fn status(&self) -> u8 {
        if self.refused() > 0 {
            return 7;
        }
        if self.faults() > 0 { 3 } else { 0 }
    }
}
