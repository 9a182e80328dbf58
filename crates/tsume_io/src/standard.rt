// std's readers and writers as a source and a sink: the edge that is trusted, since nothing is told
// of a real file's bytes, and std's words don't say when a reader or a writer fails. So each body
// is one call, whose answer `counted` tells on: what is a fault is proved there, and tests show
// that the call is made, with all that was asked.
ghost use Rattle.std.specs.Prelude.{◌≡◌, ◌-◌, ◌^◌, ◌≤◌, None, length, IfOk, OnOk, OnErr};
ghost use Rattle.std.specs.Io.KnownBytes.{ReadConsumes, WriteAppends};
ghost use Rattle.tsume_io.specs.Faults.{Rose, one_more};

use crate::fault::{Failed, counted};
use crate::{Sink, Source};
use std::io;

/// A reader of std as a source. It tells nothing of its bytes. Each error of the reader counts as a
/// fault, an interrupted read too.
#[derive(Drop)]
pub struct StdSource<R> {
    reader: R,
    faults: u64,
    ghost of_64_bits: { faults ≤ 2 ^ 64 - 1 },
}

impl<R: io::Read + Drop> StdSource<R> {
    ghost use Rattle.tsume_io.specs.Standard.{reader_of, source_faults};

    /// A source over this reader.
    pub fn new(reader: R) -> StdSource<R>
        ensures reader { reader_of result ≡ reader }
        ensures faults { source_faults result ≡ 0 }
    {
        StdSource { reader, faults: 0 }
    }

    /// The reader.
    pub fn reader(&self) -> &R
        ensures { result.now ≡ reader_of self.now }
    {
        &self.reader
    }

    /// How many reads failed, up to 2^64 - 1.
    pub fn faults(&self) -> u64
        ensures { result ≡ source_faults self.now }
    {
        self.faults
    }
}

impl<R: io::Read + Drop> Source for StdSource<R> {
    ghost use Rattle.tsume_io.specs.Standard.{reader_of, source_faults};

    ghost left = { λ _. None };

    ghost faults = { λ s. source_faults s };

    ghost of_64_bits = { λ s. s.of_64_bits };

    fn read(&mut self, into: &mut [u8]) -> Result<usize, Failed>
        // As each source that doesn't tell its bytes.
        ensures within { IfOk result (λ n. n ≤ length into.new) }
        ensures failed { OnErr result (Rose (source_faults self.old) (source_faults self.new)) }
        ensures counted { OnOk result (source_faults self.new ≡ source_faults self.old) }
        ensures never_falls { source_faults self.old ≤ source_faults self.new }

        // By one each time.
        ensures raised { OnErr result (source_faults self.new ≡ one_more (source_faults self.old)) }

        // What std tells of the reader's bytes holds here too.
        ensures reader { ReadConsumes (R.remaining (reader_of self.old))
            (R.remaining (reader_of self.new)) result into.new }
    {
        counted(self.reader.read(into), 0, &mut self.faults)
    }
}

/// A writer of std as a sink. It tells nothing of its bytes. Each error of the writer counts as a
/// fault, an interrupted write too, and so does a write that takes nothing of a piece that isn't
/// empty. The sink never flushes: give it a writer that holds nothing back.
#[derive(Drop)]
pub struct StdSink<W> {
    writer: W,
    faults: u64,
    ghost of_64_bits: { faults ≤ 2 ^ 64 - 1 },
}

impl<W: io::Write + Drop> StdSink<W> {
    ghost use Rattle.tsume_io.specs.Standard.{writer_of, sink_faults};

    /// A sink over this writer.
    pub fn new(writer: W) -> StdSink<W>
        ensures writer { writer_of result ≡ writer }
        ensures faults { sink_faults result ≡ 0 }
    {
        StdSink { writer, faults: 0 }
    }

    /// How many writes failed, up to 2^64 - 1.
    pub fn faults(&self) -> u64
        ensures { result ≡ sink_faults self.now }
    {
        self.faults
    }
}

impl<W: io::Write + Drop> Sink for StdSink<W> {
    ghost use Rattle.tsume_io.specs.Sink.{IsWriteOf};
    ghost use Rattle.tsume_io.specs.Standard.{writer_of, sink_faults};

    ghost kept = { λ _. None };

    ghost faults = { λ s. sink_faults s };

    ghost of_64_bits = { λ s. s.of_64_bits };

    fn write(&mut self, piece: &[u8]) -> Result<usize, Failed>
        // As each sink that doesn't tell its bytes.
        ensures count { IfOk result (λ n. IsWriteOf n piece.now) }
        ensures failed { OnErr result (Rose (sink_faults self.old) (sink_faults self.new)) }
        ensures counted { OnOk result (sink_faults self.new ≡ sink_faults self.old) }
        ensures never_falls { sink_faults self.old ≤ sink_faults self.new }

        // By one each time.
        ensures raised { OnErr result (sink_faults self.new ≡ one_more (sink_faults self.old)) }

        // What std tells of the writer's bytes holds here too.
        ensures writer { WriteAppends (W.contents (writer_of self.old))
            (W.contents (writer_of self.new)) result piece.now }
    {
        counted(
            self.writer.write(piece),
            piece.len().min(1),
            &mut self.faults,
        )
    }
}
