// Which lines say `stop` or `quit`.
ghost use Rattle.std.specs.Prelude.{◌≡◌, ◌↔◌, Some, [], IsTrue};
ghost use Rattle.reading_ahead.specs.Line.{IsWord, IsSaidAt, line_after, stop_word, quit_word};

use arrayvec::ArrayVec;

// The longest line that is looked at: a word of four letters and a carriage return.
const LONGEST: usize = 5;

/// What a line says to the edge.
#[derive(Clone, Copy, Debug, PartialEq, Eq)]
pub enum Said {
    /// The line is `stop`.
    Stop,
    /// The line is `quit`.
    Quit,
    /// It is another, or hasn't ended.
    Nothing,
}

// Whether a line is this word of four letters, or that with a carriage return.
fn is_stop(line: &[u8]) -> bool
    ensures { IsTrue result ↔ IsWord stop_word line.now }
{
    line == b"stop".as_slice() || line == b"stop\r".as_slice()
}

// Whether a line is this word of four letters, or that with a carriage return.
fn is_quit(line: &[u8]) -> bool
    ensures { IsTrue result ↔ IsWord quit_word line.now }
{
    line == b"quit".as_slice() || line == b"quit\r".as_slice()
}

/// The line that is being read, as far as it came; of a long one only that it is long.
#[derive(Drop)]
pub struct Line {
    start: ArrayVec<u8, LONGEST>,
    is_long: bool,
}

impl Line {
    ghost use Rattle.reading_ahead.specs.Seen.{so_far};

    /// A line of which nothing came yet.
    pub fn new() -> Line
        ensures { so_far result ≡ Some [] }
    {
        Line {
            start: ArrayVec::new(),
            is_long: false,
        }
    }

    /// What the line says, if it ends here.
    pub fn said(&self) -> Said
        ensures stop { (result ≡ Said.Stop) ↔ IsSaidAt (so_far self.now) stop_word }
        ensures quit { (result ≡ Said.Quit) ↔ IsSaidAt (so_far self.now) quit_word }
    {
        if self.is_long {
            return Said::Nothing;
        }
        if is_stop(&self.start) {
            return Said::Stop;
        }
        if is_quit(&self.start) {
            return Said::Quit;
        }
        Said::Nothing
    }

    /// Sees the next byte, and tells what the line says if it ends with it.
    pub fn see(&mut self, byte: u8) -> Said
        ensures stop { (result ≡ Said.Stop)
            ↔ ((byte ≡ 10) × IsSaidAt (so_far self.old) stop_word) }
        ensures quit { (result ≡ Said.Quit)
            ↔ ((byte ≡ 10) × IsSaidAt (so_far self.old) quit_word) }
        ensures line { so_far self.new ≡ line_after (so_far self.old) byte }
    {
        if byte == b'\n' {
            let said = self.said();
            self.start.clear();
            self.is_long = false;
            return said;
        }
        if self.is_long {
            return Said::Nothing;
        }
        match self.start.try_push(byte) {
            Ok(()) => {}
            Err(_) => self.is_long = true,
        }
        Said::Nothing
    }
}
