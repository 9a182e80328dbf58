// What is found of the problem of a text.
ghost use Rattle.std.specs.Prelude.{IfOk};
ghost use Rattle.one_run.specs.Command.{IsAnswer};
ghost use Rattle.shortest_mate.specs.Finding.{IsPrintable};
ghost use Rattle.cmd_shortest.specs.Asked.{one_stop, shortest_in};
ghost use Rattle.cmd_shortest.specs.Meaning.{shortest_meaning};

use crate::{Shortest, ShortestAnswer};
use app_texts::ProblemFault;
use one_run::Unanswered;
use problem_answers::read_problem;
use search_gate::{Gate, Stop};
use shortest_mate::LengthOnlooker;
use std::alloc::Global;

/// What is answered to the bytes of a problem's text: what is found of the shortest mate of the
/// problem that they stand for; or their first fault. The stop is armed where they stand for one.
pub(crate) fn answer<G: Gate + LengthOnlooker, T: Stop>(
    alloc: Global,
    asked: &Shortest,
    input: &[u8],
    gate: &G,
    stop: &mut T,
) -> Result<ShortestAnswer, Unanswered<ProblemFault>>
    ensures answer { IsAnswer (shortest_meaning (shortest_in asked.now))
        (one_stop (T.signal stop.old) (T.signal stop.new)) input.now result }
    ensures printable { IfOk result (λ answer. IsPrintable answer.finding) }
{
    let problem = match read_problem(input, asked.form) {
        Ok(problem) => problem,
        Err(fault) => return Err(Unanswered::Text(fault)),
    };
    // What the problem's position keeps.
    problem.position.laws();
    stop.arm(asked.watch.deadline);
    let expansions = asked.expansions.count;
    match shortest_mate::shortest(alloc, &problem, asked.limit, expansions, gate, stop) {
        Ok((finding, made)) => Ok(ShortestAnswer { finding, made }),
        Err(_) => Err(Unanswered::NoMemory),
    }
}
