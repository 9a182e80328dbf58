// Tables of pieces, of failing calls and of limits, and one look at each end of the outside.
ghost use Rattle.std.specs.Prelude.{◌≤◌, IfOk, IsErrOf};

use crate::same::same;
use search_gate::Clock;
use std::alloc::Global;
use std::cell::Cell;
use std::io;
use std::test::Fail;
use std::time::{self, Duration};
use tsume_io::{
    Failed, MemSink, MemSource, NeverFails, Opened, ReadEnd, Remembering, Sink, Source, StdClock,
    StdSink, StdSource, WriteFault, read_all, write_all,
};

const LETTERS: [u8; 28] = *b"the quick brown fox jumps on";

// The letters, read and written again in such pieces.
fn copied(alloc: Global, piece: usize) -> Result<Vec<u8>, Fail>
    requires { 1 ≤ piece }
{
    let mut source = MemSource::make(LETTERS.to_vec(alloc)?, piece, Vec::new(alloc));
    let bytes = read_all(alloc, &mut source, 28)?;
    let mut sink = MemSink::make(alloc, 28, piece, Vec::new(alloc))?;
    write_all(&mut sink, &bytes)?;
    Ok(sink.kept().to_vec(alloc)?)
}

#[test]
fn any_pieces_make_the_same_bytes(rt: HostRuntime) -> Result<(), Fail> {
    let alloc = rt.alloc();
    for copy in [copied(alloc, 1)?, copied(alloc, 2)?, copied(alloc, 7)?] {
        same(&rt, "a copy", copy.as_slice(), LETTERS.as_slice());
    }
    Ok(())
}

#[test]
fn a_source_may_fail_at_each_call(rt: HostRuntime) -> Result<(), Fail> {
    let alloc = rt.alloc();
    // The last of the 29 calls finds the end.
    for call in 1..30u64 {
        let failing = vec![in alloc; call]?;
        let mut source = MemSource::make(LETTERS.to_vec(alloc)?, 1, failing);
        let end = read_all(alloc, &mut source, 28).err();
        same(&rt, call, end, Some(ReadEnd::Fault));
        same(&rt, call, (source.calls(), source.faults()), (call, 1));
        // The bytes of the calls before it are taken, and no others.
        same(&rt, call, source.left().len() as u64, 29 - call);
    }
    Ok(())
}

#[test]
fn a_sink_may_fail_at_each_call(rt: HostRuntime) -> Result<(), Fail> {
    let alloc = rt.alloc();
    let bytes: Vec<u8> = (0..107u8).collect(alloc)?;
    for call in 1..108u64 {
        let mut sink = MemSink::make(alloc, 107, 1, vec![in alloc; call]?)?;
        same(&rt, call, write_all(&mut sink, &bytes), Err(WriteFault));
        same(&rt, call, (sink.calls(), sink.faults()), (call, 1));
        let kept: Vec<u8> = (0..107u8).take(sink.kept().len()).collect(alloc)?;
        same(&rt, call, sink.kept().len() as u64, call - 1);
        same(&rt, call, sink.kept(), kept.as_slice());
    }
    let mut small = MemSink::make(alloc, 106, 7, Vec::new(alloc))?;
    let row = "no room for the last";
    same(&rt, row, write_all(&mut small, &bytes), Err(WriteFault));
    same(&rt, row, (small.kept().len(), small.faults()), (105, 1));
    Ok(())
}

// Where nothing fails, no fault is answered.
fn read_in_memory(alloc: Global, bytes: Vec<u8>, limit: usize) -> Result<usize, ReadEnd>
    ensures { IsErrOf result ReadEnd.Fault → ⊥ }
{
    let mut source = NeverFails::new(bytes);
    let bytes = read_all(alloc, &mut source, limit)?;
    Ok(bytes.len())
}

#[test]
fn one_byte_over_the_limit_is_too_long(rt: HostRuntime) -> Result<(), Fail> {
    let alloc = rt.alloc();
    let cases = [
        (0, Err(ReadEnd::TooLong)),
        (27, Err(ReadEnd::TooLong)),
        (28, Ok(28)),
        (29, Ok(28)),
        (usize::MAX, Ok(28)),
    ];
    for (limit, want) in cases {
        let read = read_in_memory(alloc, LETTERS.to_vec(alloc)?, limit);
        same(&rt, limit, read, want);
    }
    // A fault that comes behind the byte too many isn't seen; one before it is.
    for (call, want) in [(28u64, ReadEnd::Fault), (29, ReadEnd::TooLong)] {
        let mut source = MemSource::make(LETTERS.to_vec(alloc)?, 1, vec![in alloc; call]?);
        let end = read_all(alloc, &mut source, 27).err();
        same(&rt, ("call", call), end, Some(want));
    }
    Ok(())
}

// It gives or takes two bytes, then none, and fails from then on.
#[derive(Drop)]
struct Tired {
    calls: u8,
}

impl Tired {
    fn serve(&mut self, asked: usize) -> io::Result<usize>
        ensures { IfOk result (λ n. n ≤ asked) }
    {
        self.calls = self.calls.saturating_add(1);
        match self.calls {
            1 => Ok(asked.min(2)),
            2 => Ok(0),
            3 => Err(io::Error::from(io::ErrorKind::Other)),
            // A call again would succeed.
            _ => Ok(asked.min(1)),
        }
    }
}

impl io::Read for Tired {
    fn read(&mut self, buf: &mut [u8]) -> io::Result<usize> {
        self.serve(buf.len())
    }
}

impl io::Write for Tired {
    fn write(&mut self, buf: &[u8]) -> io::Result<usize> {
        self.serve(buf.len())
    }

    fn flush(&mut self) -> io::Result<()> {
        Ok(())
    }
}

#[test]
fn a_reader_of_std_is_a_source(rt: HostRuntime) -> Result<(), Fail> {
    let alloc = rt.alloc();
    let mut source = StdSource::new(Tired { calls: 0 });
    let bytes = read_all(alloc, &mut source, 9)?;
    same(&rt, "first", bytes.as_slice(), [0, 0].as_slice());
    same(&rt, "first", source.faults(), 0);
    let end = read_all(alloc, &mut source, 9).err();
    same(&rt, "second", end, Some(ReadEnd::Fault));
    same(&rt, "second", source.faults(), 1);
    Ok(())
}

#[test]
fn a_file_that_does_not_open_fails_at_its_first_read(rt: HostRuntime) -> Result<(), Fail> {
    let alloc = rt.alloc();
    let error = io::Error::from(io::ErrorKind::NotFound);
    let refused: Opened<&[u8], &[u8]> = Opened::Refused(error);
    let mut source = StdSource::new(Remembering::new(refused));
    let end = read_all(alloc, &mut source, 9).err();
    same(&rt, "refused", end, Some(ReadEnd::Fault));
    same(&rt, "refused", source.faults(), 1);
    let kind = source.reader().reason().map(|reason| reason.kind());
    same(&rt, "refused", kind, Some(io::ErrorKind::NotFound));
    for opened in [
        Opened::File(LETTERS.as_slice()),
        Opened::Standard(LETTERS.as_slice()),
    ] {
        let mut source = StdSource::new(Remembering::new(opened));
        let bytes = read_all(alloc, &mut source, 28)?;
        same(&rt, "opened", bytes.as_slice(), LETTERS.as_slice());
        same(&rt, "opened", source.reader().reason().is_some(), false);
    }
    Ok(())
}

#[test]
fn a_writer_of_std_is_a_sink(rt: HostRuntime) {
    let mut sink = StdSink::new(Tired { calls: 0 });
    same(&rt, "two are taken", sink.write(&LETTERS), Ok(2));
    same(&rt, "nothing is asked", sink.write(&[]), Ok(0));
    same(&rt, "no fault", sink.faults(), 0);
    let mut sink = StdSink::new(Tired { calls: 1 });
    same(&rt, "nothing is taken", sink.write(&LETTERS), Err(Failed));
    same(&rt, "it fails", sink.write(&LETTERS), Err(Failed));
    same(&rt, "two faults", sink.faults(), 2);
}

const MEGABYTE: usize = 1 << 20;

fn counting(alloc: Global, size: u32) -> Result<Vec<u8>, Fail> {
    Ok((0..size).map(|n| (n % 251) as u8).collect(alloc)?)
}

// No clause says that a reader's bytes are no fault, nor a writer's. In pieces of one byte each of
// the two is called a million times.
#[test]
fn a_megabyte_goes_through_buffers_of_ten_sizes(rt: HostRuntime) -> Result<(), Fail> {
    let alloc = rt.alloc();
    let bytes = counting(alloc, 1 << 20)?;
    for size in [1, 2, 7, 512, 4_095, 4_097, 8_193, 65_536, 65_537, MEGABYTE] {
        let mut copy = Vec::with_capacity(alloc, MEGABYTE)?;
        let mut source = StdSource::new(bytes.as_slice());
        let mut sink = StdSink::new(&mut copy);
        let mut buffer = vec![in alloc; 0; size]?;
        for _ in 0..MEGABYTE.div_ceil(size) {
            let count = source.read(&mut buffer)?;
            write_all(&mut sink, &buffer[..count])?;
        }
        same(&rt, size, source.read(&mut buffer), Ok(0));
        same(&rt, size, copy == bytes, true);
    }
    Ok(())
}

// So a body that fails from some size on, which would meet each clause, fails here.
#[test]
fn no_size_of_a_buffer_is_a_fault(rt: HostRuntime) {
    let bytes = [7; 70_001];
    let mut space = [0; 70_000];
    let space = &mut space[..];
    for size in 1..=70_000usize {
        let mut source = StdSource::new(bytes.as_slice());
        same(&rt, size, source.read(&mut space[..size]), Ok(size));
        let mut sink = StdSink::new(&mut space[..size]);
        same(&rt, size, sink.write(&bytes[..size]), Ok(size));
    }
}

// A system that tells the time once in two calls.
#[derive(Drop)]
struct Forgetful {
    calls: Cell<u64>,
}

impl time::Clock for Forgetful {
    fn monotonic(&self) -> io::Result<Duration> {
        let call = self.calls.get();
        self.calls.set(call.saturating_add(1));
        if call % 2 == 0 {
            Ok(Duration::from_micros(call.saturating_mul(1_500)))
        } else {
            Err(io::ErrorKind::Unsupported.into())
        }
    }

    fn since_1970(&self) -> io::Result<Duration> {
        Ok(Duration::ZERO)
    }
}

#[test]
fn a_clock_that_is_not_told_the_time_shows_its_last(rt: HostRuntime) {
    let mut clock = StdClock::new(Forgetful {
        calls: Cell::new(0),
    });
    for (ask, wanted) in [0, 0, 3, 3, 6].into_iter().enumerate() {
        same(&rt, ask, clock.now(), wanted);
    }
    let mut clock = StdClock::new(&rt);
    let first = clock.now();
    same(&rt, "it is told", first > 0, true);
    same(&rt, "it runs on", clock.now() >= first, true);
}
