// Texts about the shortest mate.
ghost use Rattle.std.specs.Prelude.{◌≢◌, ◌++◌};
ghost use Rattle.mate_facts.specs.declared.rank.Rank.{Rank};
ghost use Rattle.cert_text.specs.Entries.{line};
ghost use Rattle.cert_text.specs.Reading.{Lacks};
ghost use Rattle.shortest_text.specs.Text.{none_line, shortest_line};
ghost use Rattle.shortest_text.specs.declared.text.ShortestText.{ShortestText};
ghost use Rattle.shortest_text.specs.declared.fault.ShortestFault.{ShortestFault};
ghost use Rattle.shortest_text.specs.Reading.{IsReadable, IsTextOf, HasFirstFault, IsShortestOutcome, IsReadAs, IsFaultAs};

use crate::certificate::certificate_of;
use crate::lines::numbered_line;
use crate::problem::problem_of_line;
use crate::{ShortestEnd, ShortestFault, ShortestText};
use bound_text::{bound_laws, read_bound};
use cert_text::{CertFault, cert_laws, cut, up_to_end};
use mate_facts::Rank;
use sfen_text::sfen_laws;
use std::alloc::Global;

const BAD_HEAD: ShortestEnd = ShortestEnd::Fault(ShortestFault::Certificate(CertFault::BadHead));

// What a front line, the number of moves and what is behind them say.
fn found_of(
    alloc: Global,
    front: &[u8],
    rank: Rank,
    text: &[u8],
) -> Result<ShortestText, ShortestEnd>
    requires is_line { Lacks 10 front.now }
    requires not_none { (limit : Rank) → line front.now ≢ none_line limit }
    ensures { IsShortestOutcome (line front.now ++ (shortest_line rank ++ text.now)) result }
{
    let (own, rest) = up_to_end(text);
    let certificate = match certificate_of(alloc, front, own) {
        Ok(certificate) => certificate,
        Err(end) => return Err(ShortestEnd::from(end)),
    };
    let bound = match read_bound(alloc, rest, certificate.problem()) {
        Ok(bound) => bound,
        Err(end) => return Err(ShortestEnd::from(end)),
    };
    Ok(ShortestText::Found {
        rank,
        certificate,
        bound,
    })
}

// What a limit and what is behind its line say.
fn none_of(alloc: Global, limit: Rank, text: &[u8]) -> Result<ShortestText, ShortestEnd>
    ensures { IsShortestOutcome (none_line limit ++ text.now) result }
{
    // No line feed stands in a position's text.
    sfen_laws();
    let Some((second, rest)) = cut(text, b'\n') else {
        return Err(BAD_HEAD);
    };
    let Some(problem) = problem_of_line(alloc, second)? else {
        return Err(BAD_HEAD);
    };
    let bound = match read_bound(alloc, rest, &problem) {
        Ok(bound) => bound,
        Err(end) => return Err(ShortestEnd::from(end)),
    };
    Ok(ShortestText::NoneWithin { limit, bound })
}

fn shortest_of(alloc: Global, bytes: &[u8]) -> Result<ShortestText, ShortestEnd>
    ensures { IsShortestOutcome bytes.now result }
{
    if let Some((limit, rest)) = numbered_line(bytes, b"none within ") {
        return none_of(alloc, limit, rest);
    }
    let Some((front, rest)) = cut(bytes, b'\n') else {
        return Err(BAD_HEAD);
    };
    let Some((rank, rest)) = numbered_line(rest, b"shortest ") else {
        return Err(BAD_HEAD);
    };
    found_of(alloc, front, rank, rest)
}

/// What the text says of the shortest mate of a problem.
///
/// It has one of two forms. One is the line `checkmate` with one or more moves (USI protocol),
/// which aren't compared with anything; the line `shortest N`; the text of a mate's certificate of
/// version 1 ([`cert_text::write_cert`]), as a bound is of version 1 alone; and that of a bound for
/// its problem ([`bound_text::write_bound`]). The other is the line `none within L`; the line
/// `problem SFEN`, as a certificate has it; and the text of a bound for that problem. N and L are
/// from 1 to [`mate_facts::MOST_RANK`], without a leading zero.
///
/// For any other text its first fault ([`ShortestFault`]). Errors: want of memory alone. Reads the
/// certificate from a copy of its text.
pub fn read_shortest(alloc: Global, bytes: &[u8]) -> Result<ShortestText, ShortestEnd>
    ensures exact { IsShortestOutcome bytes.now result }
    // Whatever can be read is, from its text, unless memory is wanted.
    ensures again { (t : ShortestText) → IsReadable t → IsTextOf t bytes.now → IsReadAs t result }
    // No text has two first faults, or one and something that it says.
    ensures only { (fault : ShortestFault) → HasFirstFault bytes.now fault
        → IsFaultAs fault result }
{
    // No text is two positions', two certificates' or two bounds'.
    sfen_laws();
    cert_laws();
    bound_laws();
    shortest_of(alloc, bytes)
}
