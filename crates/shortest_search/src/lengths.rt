// One length after the other.
ghost use Rattle.std.specs.Prelude.{◌≡◌, ◌<◌, ◌≤◌};
ghost use Rattle.search_gate.specs.Polls.{IsPolledForEach};
ghost use Rattle.shortest_facts.specs.declared.fact.TheConstants.{NEVER};
ghost use Rattle.shortest_facts.specs.Facts.{AreBorneOut};
ghost use Rattle.shortest_facts.specs.Keys.{known_of};
ghost use Rattle.shortest_search.specs.Visit.{GoesOn, IsLengthOutcome, IsStopped};

use crate::onlooker::LengthOnlooker;
use crate::run::{Run, VisitEnd};
use crate::visiting::visit;
use search_gate::Stop;
use shogi_rules::Problem;

/// Looks for the least number of moves in which the problem is mate, up to a limit: asks of one
/// number after the other, from the least that is known not to be too small, whether a mate takes
/// so many or fewer. Whether one does within the limit; then what is known has its length, from
/// both sides, else that it takes more than the limit. The onlooker is told each number before it
/// is asked about (no clause says it). Errors: all expansions made; a stop; want of memory.
pub fn find_length<T: Stop, O: LengthOnlooker>(
    problem: &Problem,
    run: &mut Run,
    stop: &mut T,
    limit: u32,
    onlooker: &O,
) -> Result<bool, VisitEnd>
    requires same { (known_of run.old.facts).attacker ≡ problem.now.position.side }
    requires borne_out { AreBorneOut (known_of run.old.facts) }
    requires made { run.old.made ≤ run.old.most }
    requires finite { limit < NEVER }
    ensures goes_on { GoesOn run.old run.new }
    // Where it is found, what is known says that it takes no more than it takes at least, and no
    // more than the limit; else that it takes more than the limit.
    ensures outcome { IsLengthOutcome run.new problem.now.position limit result }
    ensures stopped { IsStopped result (T.signal stop.old) (T.signal stop.new) }
    ensures polled { IsPolledForEach run.old.made run.new.made (T.signal stop.old)
        (T.signal stop.new) }
{
    problem.position.laws();
    loop {
        let least = run.facts.fact(&problem.position).least;
        if least > limit {
            return Ok(false);
        }
        onlooker.asks(least, run.made);
        if visit(problem, run, stop, &problem.position, least)? {
            return Ok(true);
        }
    }
}
