// A run of `shortest`.
ghost use Rattle.std.specs.Prelude.{◌≡◌, ◌⊎◌, ℕ, List, Some, Vec};
ghost use Rattle.std.specs.Global.{Global as TheGlobal};
ghost use Rattle.board_core.specs.declared.moves.Move.{Move};
ghost use Rattle.mate_facts.specs.declared.rank.Rank.{Rank};
ghost use Rattle.cert_text.specs.Certificate.{CertificateView, Mating};
ghost use Rattle.bound_text.specs.declared.entry.BoundEntry.{BoundEntry};
ghost use Rattle.search_limits.specs.declared.cause.Cause.{Cause};
ghost use Rattle.shortest_mate.specs.declared.finding.Finding.TheVariants as findings;
ghost use Rattle.tsume_io.specs.Faults.{Rose};
ghost use Rattle.one_run.specs.Outside.{shown};
ghost use Rattle.one_run.specs.Run.{AreUsedTill, IsAnswered, IsCounted, IsEnded, IsRun, WantsMemory};
ghost use Rattle.one_run.specs.Stops.{once_armed};
ghost use Rattle.cmd_shortest.specs.Asked.{one_stop, shortest_in};
ghost use Rattle.cmd_shortest.specs.Headline.{HasProblemLeft, NamesNone, NamesShortest, StandsForNone, StandsForShortest, StandsForUnknown, Tells, TellsAfter};
ghost use Rattle.cmd_shortest.specs.Meaning.{shortest_meaning};

use crate::deciding::answer;
use crate::{Shortest, ShortestAnswer};
use app_texts::ProblemFault;
use one_run::{Ended, read, tell};
use problem_answers::problem_laws;
use search_gate::{Gate, Stop};
use shortest_mate::LengthOnlooker;
use std::alloc::Global;
use tsume_io::{Sink, Source};

// Reads the text, answers it, and tells the answer.
fn shortest_through<S: Source, K: Sink, G: Gate + LengthOnlooker, T: Stop>(
    alloc: Global,
    asked: &Shortest,
    source: &mut S,
    sink: &mut K,
    gate: &G,
    stop: &mut T,
) -> Ended<ShortestAnswer, ProblemFault>
    ensures { IsRun (shortest_meaning (shortest_in asked.now))
        (one_stop (T.signal stop.old) (T.signal stop.new))
        (shown S.left S.faults source.old source.new)
        (shown K.kept K.faults sink.old sink.new) result }
{
    let input = match read(alloc, asked, source) {
        Ok(input) => input,
        Err(ended) => return ended,
    };
    let answer = answer(alloc, asked, &input, gate, stop);
    tell(alloc, asked, input, answer, sink)
}

/// Looks for the shortest mate of the problem of the text that the source gives, an SFEN or the
/// board diagram of a KIF file, of at most
/// [`MOST_PROBLEM_BYTES`](problem_lines::MOST_PROBLEM_BYTES): writes to the sink how many of the
/// attacker's moves it takes, behind the USI answer with a line of play that is as long, and with
/// the certificate of the mate and the bound that none is shorter; or that there is none up to the
/// limit, with the bound; or that it is unknown, and why: for the expansions that were asked for,
/// since the stop signalled, or as what was found has more entries than are read. What is written
/// of a mate, or of none, `check --bound` accepts, unless it is too long. Errors: a text that is no
/// problem, with its first fault, or is too long; a source or a sink that failed; want of memory.
/// The gate is passed for visits of positions, as worker 1, and told which lengths are asked about
/// (no clause says it). (The tsume rule; USI protocol: `checkmate`.)
pub fn shortest<S: Source, K: Sink, G: Gate + LengthOnlooker, T: Stop>(
    alloc: Global,
    asked: &Shortest,
    source: &mut S,
    sink: &mut K,
    gate: &G,
    stop: &mut T,
) -> Ended<ShortestAnswer, ProblemFault>
    // In plain words. Where it ended with a shortest mate, the bytes that the source had left stand
    // for a problem that is a mate in so many of the attacker's moves, no more than the limit, and
    // in no fewer; and what was printed shows it.
    ensures found { (input : List ℕ) (rank : Rank) (c : Mating) (b : CertificateView BoundEntry)
        (moves : Vec Move TheGlobal) → S.left source.old ≡ Some input
        → Tells result (findings.Found rank c b moves)
        → StandsForShortest asked.now.form asked.now.limit input rank c b moves }

    // Where it ended with none within the limit, the bytes stand for a problem that is no mate
    // within so many moves; and what was printed shows it.
    ensures none_within { (input : List ℕ) (limit : Rank) (b : CertificateView BoundEntry)
        → S.left source.old ≡ Some input → Tells result (findings.NoneWithin limit b)
        → StandsForNone asked.now.form asked.now.limit input limit b }

    // Where neither is told, it is as all expansions that were asked for were made, since the stop
    // signalled, or as what was found has more entries than are read.
    ensures gave_up { (input : List ℕ) (made : ℕ) (cause : Cause) → S.left source.old ≡ Some input
        → TellsAfter made result (findings.Unknown cause)
        → StandsForUnknown (shortest_in asked.now)
        (once_armed (shortest_in asked.now).watch.deadline
        (one_stop (T.signal stop.old) (T.signal stop.new))) input made cause }

    // Whatever the source tells of its bytes, as a file tells nothing: what was printed names the
    // problem of which it is so, and shows it.
    ensures own_found { (rank : Rank) (c : Mating) (b : CertificateView BoundEntry)
        (moves : Vec Move TheGlobal) → Tells result (findings.Found rank c b moves)
        → NamesShortest rank c b moves }
    ensures own_none { (limit : Rank) (b : CertificateView BoundEntry)
        → Tells result (findings.NoneWithin limit b) → NamesNone limit b }

    // In full: what it means by an answer and by each fault.
    ensures ended { IsEnded (shortest_meaning (shortest_in asked.now))
        (one_stop (T.signal stop.old) (T.signal stop.new))
        (shown S.left S.faults source.old source.new)
        (shown K.kept K.faults sink.old sink.new) result }

    // The stop is armed once, for the deadline or for none, where the text stands for a problem,
    // before it is polled. Else it isn't used; where memory is wanted, either.
    ensures used { AreUsedTill (shortest_meaning (shortest_in asked.now))
        (one_stop (T.signal stop.old) (T.signal stop.new)) result }

    // The source's count of faults rises only where the run ends for it, and the sink's likewise.
    ensures counted { IsCounted (shown S.left S.faults source.old source.new)
        (shown K.kept K.faults sink.old sink.new) result }

    // The text of a problem, told by the source and not too long, is answered, unless the outside
    // fails or memory is wanted.
    ensures complete { HasProblemLeft asked.now.form (S.left source.old)
        → ¬ Rose (S.faults source.old) (S.faults source.new)
        → ¬ Rose (K.faults sink.old) (K.faults sink.new) → IsAnswered result ⊎ WantsMemory result }
{
    // What stands for a problem has no fault.
    problem_laws();
    shortest_through(alloc, asked, source, sink, gate, stop)
}
