// A run of `collection`.
ghost use Rattle.std.specs.Prelude.{◌≡◌, ◌⊎◌, IfOk};
ghost use Rattle.tsume_io.specs.Faults.{Rose};
ghost use Rattle.problem_lines.specs.Lines.{seen};
ghost use Rattle.one_run.specs.Outside.{NeverFailed, Shown, shown};
ghost use Rattle.one_run.specs.Run.{IsAnswered, IsCounted, IsReadWhole, WantsMemory};
ghost use Rattle.one_run.specs.Serial.{IsPartTold, IsSerialEnd, IsSerialRun};
ghost use Rattle.cmd_collection.specs.declared.asked.TheConstants.{MOST_COLLECTION_BYTES};
ghost use Rattle.cmd_collection.specs.Asked.{collect_in};
ghost use Rattle.cmd_collection.specs.Headline.{IsCollected, IsTextGiven};
ghost use Rattle.cmd_collection.specs.Meaning.{collection_meaning};
ghost use Rattle.cmd_collection.specs.Reports.{IsTrueReport, MeansStopped};
ghost use Rattle.cmd_collection.specs.ReportText.{HasReportLine, told_remark};

use crate::{Collection, Counts, NoFault, Onlooker, Reported, Reports, append_report, counts_text};
use one_run::{Ended, Fault, Input, read, write};
use problem_lines::{Line, Lines};
use std::alloc::{AllocError, Global};
use std::thread::Threads;
use tsume_io::{Sink, Source, write_all};

// What is told of a line's remark: nothing, unless remarks are told.
fn told_remark<'a>(line: &Line<'a>, remarks: bool) -> &'a [u8]
    ensures { result.now ≡ told_remark remarks (seen line.now) }
{
    if remarks { line.remark } else { b"" }
}

// The text of a line's report, which is counted. Errors: want of memory alone.
fn line_text(
    alloc: Global,
    asked: &Collection,
    reported: &Reported<'_>,
    counts: &mut Counts,
) -> Result<Vec<u8>, AllocError>
    requires { HasReportLine reported.now.report }
    ensures { let view = collect_in asked.now in
        IsTrueReport view.settings view.form (seen reported.now.line) reported.now.report
        → IfOk result (λ text. IsPartTold (collection_meaning view) (seen reported.now.line)
        counts.old counts.new text.items) }
{
    // There are no more lines than bytes, so the counts never get there.
    if counts.problems() == u64::MAX {
        return Err(AllocError);
    }
    let mut text = Vec::new(alloc);
    let line = &reported.line;
    let remark = told_remark(line, asked.form.remarks);
    let certificates = asked.form.certificates;
    append_report(
        &mut text,
        line.number,
        &reported.report,
        remark,
        certificates,
    )?;
    counts.add(&reported.report);
    Ok(text)
}

// How many lines of a text hold a problem.
fn line_count(text: &[u8]) -> usize {
    let mut lines = Lines::new(text, 1);
    for count in 0..text.len() {
        if lines.next().is_none() {
            return count;
        }
    }
    text.len()
}

// Tells who looks on how many lines are to be decided, where that is asked for.
fn begin<O: Onlooker>(asked: &Collection, input: &[u8], onlooker: &O) {
    if asked.form.progress {
        onlooker.begin(line_count(input));
    }
}

// Decides the lines of a collection, many at a time, and writes each report in their order once it
// is known, and the counts behind the last.
fn collected<R: Threads + Sync, K: Sink, O: Onlooker>(
    rt: &R,
    alloc: Global,
    asked: &Collection,
    input: &[u8],
    sink: &mut K,
    onlooker: &O,
) -> Ended<Counts, NoFault>
    ensures ended { (source : Shown) → IsReadWhole MOST_COLLECTION_BYTES source input.now
        → IsSerialEnd (collection_meaning (collect_in asked.now)) source
        (shown K.kept K.faults sink.old sink.new) result }
    ensures counted { (source : Shown) → NeverFailed source
        → IsCounted source (shown K.kept K.faults sink.old sink.new) result }
{
    let Ok(mut reports) = Reports::new(rt, alloc, input, &asked.settings, &asked.form) else {
        return Ended::Failed(Fault::NoMemory, Input::none(alloc));
    };
    let mut counts = Counts::none();
    loop {
        let Ok(next) = reports.next(rt, alloc, onlooker) else {
            return Ended::Failed(Fault::NoMemory, Input::none(alloc));
        };
        let Some(reported) = next else {
            let text = counts_text(alloc, &counts);
            return write(counts, text, sink).ended(alloc);
        };
        let Ok(text) = line_text(alloc, asked, &reported, &mut counts) else {
            return Ended::Failed(Fault::NoMemory, Input::none(alloc));
        };
        let Ok(()) = write_all(sink, &text) else {
            return Ended::CutShort(counts);
        };
    }
}

// Reads the text, decides its lines and tells of them.
fn collect_through<R: Threads + Sync, S: Source, K: Sink, O: Onlooker>(
    rt: &R,
    alloc: Global,
    asked: &Collection,
    source: &mut S,
    sink: &mut K,
    onlooker: &O,
) -> Ended<Counts, NoFault>
    ensures { IsSerialRun (collection_meaning (collect_in asked.now))
        (shown S.left S.faults source.old source.new)
        (shown K.kept K.faults sink.old sink.new) result }
{
    match read(alloc, asked, source) {
        Ok(input) => {
            begin(asked, &input, onlooker);
            collected(rt, alloc, asked, &input, sink, onlooker)
        }
        Err(ended) => ended,
    }
}

/// Decides every problem of the collection that the source gives, of at most
/// [`MOST_COLLECTION_BYTES`](crate::MOST_COLLECTION_BYTES), which is read whole first, and writes
/// to the sink what is told of each line, in order, once it is known, and the counts behind the
/// last. A line that is no problem doesn't end the run. Where it is asked for, who looks on is told
/// how many lines there are, and of each when it is decided. Where there is a deadline, each search
/// polls a stop of its own, which is armed anew when it begins. Errors: a text that is too long; a
/// source or a sink that failed; want of memory, behind whole lines.
pub fn collection<R: Threads + Sync, S: Source, K: Sink, O: Onlooker>(
    rt: &R,
    alloc: Global,
    asked: &Collection,
    source: &mut S,
    sink: &mut K,
    onlooker: &O,
) -> Ended<Counts, NoFault>
    // In plain words. Where it was answered, each line that holds a problem was told by a true
    // report, in their order, and the counts behind them.
    ensures collected { (counts : Counts) → result ≡ Ended.Answered counts
        → IsCollected (collect_in asked.now) (shown S.left S.faults source.old source.new)
        (shown K.kept K.faults sink.old sink.new) counts }

    // A true report that says `unknown stopped` is of a line whose search had a deadline, and was
    // stopped by it: its stop rose. So without a deadline none says so.
    ensures stopped { MeansStopped (collect_in asked.now).settings (collect_in asked.now).form }

    // In full: how it ended, what was written where it is cut short or fails, and the cause of each
    // fault; the counts of faults rise only where the run ends for it.
    ensures run { IsSerialRun (collection_meaning (collect_in asked.now))
        (shown S.left S.faults source.old source.new)
        (shown K.kept K.faults sink.old sink.new) result }

    // Any text, told by the source and not too long, is answered, unless the outside fails or
    // memory is wanted.
    ensures complete { IsTextGiven (S.left source.old)
        → ¬ Rose (S.faults source.old) (S.faults source.new)
        → ¬ Rose (K.faults sink.old) (K.faults sink.new) → IsAnswered result ⊎ WantsMemory result }
{
    collect_through(rt, alloc, asked, source, sink, onlooker)
}
