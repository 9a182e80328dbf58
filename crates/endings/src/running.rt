// The runs of the file, and what is told of each.
ghost use Rattle.std.specs.Prelude.{◌≡◌, IfOk, vec_len};
ghost use Rattle.search_limits.specs.declared.settings.TheConstants.{MOST_WORKERS};

use crate::line::Line;
use search_gate::{MemStop, OpenGate};
use search_limits::MOST_WORKERS;
use std::alloc::{AllocError, Global};
use std::fs::{self, Files};
use std::io::{self, BufWriter, Print, Write};
use std::sync::Wait;
use std::thread::Threads;
use tsume_app::{OpenPipe, Streams, WordsRead, run_and_tell};
use tsume_io::{MemSink, MemSource};

const ROOM: usize = 65_536;

// A stop for each worker that there may be; the first signals at its poll of this number, 0 for
// none.
fn stops_at(alloc: Global, poll: u64) -> Result<Vec<MemStop>, AllocError>
    ensures { IfOk result (λ stops. vec_len stops ≡ MOST_WORKERS) }
{
    let mut stops = Vec::new(alloc);
    for worker in 0..MOST_WORKERS {
        let at = if worker == 0 { poll } else { 0 };
        stops.push(MemStop::new(vec![in alloc; at]?))?;
    }
    Ok(stops)
}

// A text with a mark before each of its lines, and a line that says so where its last one has no
// end.
fn write_marked<W: Write>(output: &mut W, mark: &str, text: &[u8]) -> io::Result<()> {
    let mut begins = true;
    for byte in text {
        if begins {
            output.write_all(mark.as_bytes())?;
        }
        output.write_all(&[*byte])?;
        begins = *byte == b'\n';
    }
    if !begins {
        output.write_all(b"\n\\ no line feed\n")?;
    }
    Ok(())
}

fn tell<R: Threads + Wait + AllocGlobal + Sync, W: Write>(
    rt: &R,
    output: &mut W,
    text: &str,
) -> io::Result<()> {
    let alloc = rt.alloc();
    let line = Line::read(text);
    let reads = vec![in alloc; line.number_of("read")]?;
    let writes = vec![in alloc; line.number_of("write")]?;
    let mut streams = Streams {
        source: MemSource::make(line.input(alloc)?, 7, reads),
        sink: MemSink::make(alloc, ROOM, 11, writes)?,
        errors: MemSink::make(alloc, ROOM, 11, Vec::new(alloc))?,
    };
    let words = WordsRead::new(alloc, line.words(alloc)?);
    let mut stops = stops_at(alloc, line.number_of("poll"))?;
    let status = run_and_tell(rt, words, &mut streams, &OpenPipe, &OpenGate, &mut stops);
    write!(output, "$ {text}\nstatus {status}\n")?;
    write_marked(output, "out ", streams.sink.kept())?;
    write_marked(output, "err ", streams.errors.kept())
}

pub fn tell_all<R: Print + Files + Threads + Wait + AllocGlobal + Sync>(rt: &R) -> io::Result<()> {
    let runs = fs::read_to_string(rt, "runs")?;
    let mut output = BufWriter::new(rt.alloc(), io::writer(rt))?;
    for text in runs.as_str().split('\n') {
        if !text.is_empty() && !text.starts_with('#') {
            tell(rt, &mut output, text)?;
        }
    }
    output.flush()
}
