// A run of a command: its text is read, the command answers it, and the answer is told.
ghost use Rattle.std.specs.Prelude.{◌≡◌, IfOk, IfErr};
ghost use Rattle.one_run.specs.Command.{IsAnswer};
ghost use Rattle.one_run.specs.Inside.{IsUnread, read_fault};
ghost use Rattle.one_run.specs.Outside.{IsUntouched, Shown, NeverFailed, shown};
ghost use Rattle.one_run.specs.Run.{IsFailed, IsReadWhole, IsRun};
ghost use Rattle.one_run.specs.Stops.{Signals, AreUnused};

use crate::{Command, Ended, Fault, Input, Unanswered, write};
use std::alloc::Global;
use tsume_io::{ReadEnd, Sink, Source, read_all};

// All bytes of the source, where there are no more than the limit.
fn read_text<S: Source>(alloc: Global, limit: usize, source: &mut S) -> Result<Vec<u8>, ReadEnd>
    ensures read { let outside = shown S.left S.faults source.old source.new in
        IfOk result (λ input. IsReadWhole limit outside input.items) }
    ensures kept { let outside = shown S.left S.faults source.old source.new in
        IfOk result (λ input. NeverFailed outside) }
    ensures cause { IfErr result (IsUnread limit (shown S.left S.faults source.old source.new)) }
{
    match read_all(alloc, source, limit) {
        Ok(input) => Ok(input),
        Err(ReadEnd::Fault) => Err(ReadEnd::Fault),
        Err(ReadEnd::TooLong) => Err(ReadEnd::TooLong),
        Err(ReadEnd::NoMemory) => Err(ReadEnd::NoMemory),
    }
}

fn fault_of<F: Drop>(end: ReadEnd) -> Fault<F>
    ensures { result ≡ read_fault end }
{
    match end {
        ReadEnd::Fault => Fault::Read,
        ReadEnd::TooLong => Fault::TooLong,
        ReadEnd::NoMemory => Fault::NoMemory,
    }
}

/// Begins a run: reads the command's text, all bytes of the source, where there are no more than
/// the command takes. Errors: how the run ended, where they can't be read.
pub fn read<C: Command, S: Source>(
    alloc: Global,
    command: &C,
    source: &mut S,
) -> Result<Vec<u8>, Ended<C::Answer, C::Fault>>
    ensures whole { let outside = shown S.left S.faults source.old source.new in
        IfOk result (λ input. IsReadWhole (C.meaning command.now).limit outside input.items) }
    ensures kept { let outside = shown S.left S.faults source.old source.new in
        IfOk result (λ input. NeverFailed outside) }
    // Where nothing is written, and no stop used, that is a run of the command.
    ensures ended { let outside = shown S.left S.faults source.old source.new in
        (stops : Signals) (sink : Shown) → AreUnused stops → IsUntouched sink
        → IfErr result (IsRun (C.meaning command.now) stops outside sink) }
    ensures failed { IfErr result IsFailed }
{
    match read_text(alloc, command.limit(), source) {
        Ok(input) => Ok(input),
        Err(end) => Err(Ended::Failed(fault_of(end), Input::none(alloc))),
    }
}

/// Ends a run whose text, these bytes, was read whole: writes the whole text of the answer, which
/// is made before the first write; or, where the text isn't answered, writes nothing and keeps the
/// bytes.
pub fn tell<C: Command, K: Sink>(
    alloc: Global,
    command: &C,
    input: Vec<u8>,
    answer: Result<C::Answer, Unanswered<C::Fault>>,
    sink: &mut K,
) -> Ended<C::Answer, C::Fault>
    requires { IfOk answer (C.meaning command.now).HasText }
    // Wherever these bytes were read whole, and whatever became of the stops: where the command
    // answers them so, that is a run of it.
    ensures { (stops : Signals) (source : Shown)
        → IsReadWhole (C.meaning command.now).limit source input.items → NeverFailed source
        → IsAnswer (C.meaning command.now) stops input.items answer
        → IsRun (C.meaning command.now) stops source
        (shown K.kept K.faults sink.old sink.new) result }
{
    match answer {
        Ok(answer) => {
            let text = command.text(alloc, &answer);
            write(answer, text, sink).ended(alloc)
        }
        Err(Unanswered::Text(fault)) => Ended::Failed(Fault::Text(fault), Input::new(input)),
        Err(Unanswered::NoMemory) => Ended::Failed(Fault::NoMemory, Input::new(input)),
    }
}
