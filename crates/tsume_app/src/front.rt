// How the input begins.
ghost use Rattle.std.specs.Prelude.{◌≡◌};

use std::alloc::Global;
use std::io;

// The most bytes that are kept.
const MOST_KEPT: usize = 16_384;

/// A reader that keeps the first bytes of what it reads, so that the user can be told what they
/// look like.
#[derive(Drop)]
pub(crate) struct Front<R> {
    reader: R,
    kept: Vec<u8>,
}

impl<R: io::Read + Drop> Front<R> {
    /// Over this reader, of which nothing was read yet.
    pub(crate) fn new(alloc: Global, reader: R) -> Front<R>
        ensures { result.reader ≡ reader }
    {
        Front {
            reader,
            kept: Vec::new(alloc),
        }
    }

    /// The reader.
    pub(crate) fn reader(&self) -> &R
        ensures { result.now ≡ self.now.reader }
    {
        &self.reader
    }

    /// The first bytes that were read, some thousands at most; fewer where memory was wanted.
    pub(crate) fn kept(&self) -> &[u8] {
        &self.kept
    }

    // Keeps these bytes, as far as there is place.
    fn keep(&mut self, bytes: &[u8])
        ensures { self.new.reader ≡ self.old.reader }
    {
        let place = MOST_KEPT.saturating_sub(self.kept.len());
        let bytes = bytes.get(..place).unwrap_or(bytes);
        self.kept.extend_from_slice(bytes).ok();
    }
}

impl<R: io::Read + Drop> io::Read for Front<R> {
    // The reader's bytes.
    ghost remaining = { λ front. R.remaining front.reader };

    fn read(&mut self, buf: &mut [u8]) -> io::Result<usize> {
        let answer = self.reader.read(buf);
        if let Ok(count) = &answer {
            let bytes = buf.get(..*count).unwrap_or(buf);
            self.keep(bytes);
        }
        answer
    }
}
