// What is read where the words may name a file.
ghost use Rattle.std.specs.Prelude.{◌≡◌};

use std::io;

/// What was opened to be read.
#[derive(Drop)]
pub enum Opened<F, R> {
    /// A file.
    File(F),
    /// The standard input.
    Standard(R),
    /// Nothing, since the system refused to open the file: each read fails with its reason.
    Refused(io::Error),
}

impl<F: io::Read + Drop, R: io::Read + Drop> io::Read for Opened<F, R> {
    ghost use Rattle.tsume_io.specs.Standard.{bytes_left};

    // The bytes of what was opened.
    ghost remaining = { λ opened. bytes_left F.remaining R.remaining opened };

    fn read(&mut self, buf: &mut [u8]) -> io::Result<usize> {
        match self {
            Opened::File(file) => file.read(buf),
            Opened::Standard(reader) => reader.read(buf),
            Opened::Refused(reason) => Err(*reason),
        }
    }
}

/// A reader that keeps the system's reason where a read of it failed, so that the user can be told.
#[derive(Drop)]
pub struct Remembering<R> {
    reader: R,
    reason: Option<io::Error>,
}

impl<R: io::Read + Drop> Remembering<R> {
    ghost use Rattle.tsume_io.specs.Standard.{remembering_reader};

    /// This reader, of which no read failed yet.
    pub fn new(reader: R) -> Remembering<R>
        ensures { remembering_reader result ≡ reader }
    {
        Remembering {
            reader,
            reason: None,
        }
    }

    /// Why the last read failed that did; none where none did.
    pub fn reason(&self) -> Option<io::Error> {
        self.reason
    }
}

impl<R: io::Read + Drop> io::Read for Remembering<R> {
    ghost use Rattle.tsume_io.specs.Standard.{remembering_reader};

    // The reader's bytes.
    ghost remaining = { λ noted. R.remaining (remembering_reader noted) };

    fn read(&mut self, buf: &mut [u8]) -> io::Result<usize> {
        let answer = self.reader.read(buf);
        if let Err(reason) = &answer {
            self.reason = Some(*reason);
        }
        answer
    }
}
