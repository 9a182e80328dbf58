// The lines of an input.
ghost use Rattle.std.specs.Prelude.{◌≡◌, ◌≤◌, [], ◌∷◌, IfOk, MatchOption, IsErrOf, OnOk};
ghost use Rattle.tsume_io.specs.Faults.{Rose};
ghost use Rattle.tsume_io.specs.Source.{IsAtEnd};
ghost use Rattle.input_lines.specs.Lines.{Gave, HasMore, IsLineGiven, IsOver, IsTooLong, first_lines, place_of};
ghost use Rattle.input_lines.specs.declared.lines.LineEnd.TheVariants.{Fault as FaultEnd, NoMemory as NoMemoryEnd};

use std::alloc::{AllocError, Global};
use std::collections::VecDeque;
use std::marker::Model;
use tsume_io::{Failed, Source};

/// The most bytes that a line may have, without its line feed.
pub const MOST_LINE_BYTES: usize = 65_536;

/// The most bytes that an input may have.
pub const MOST_INPUT_BYTES: usize = 16_777_216;

// What ends a line.
const LINE_FEED: u8 = b'\n';

// How many bytes one read asks for.
const PIECE: usize = 4_096;

/// Why no line was given.
#[derive(Clone, Copy, Debug, PartialEq, Eq)]
pub enum LineEnd {
    /// The source failed.
    Fault,
    /// The line or the input has more bytes than it may.
    TooLong,
    /// There was no memory for a line or a piece.
    NoMemory,
}

impl From<Failed> for LineEnd {
    ghost from_gives = { λ _ e. e ≡ FaultEnd };

    fn from(_: Failed) -> Self {
        LineEnd::Fault
    }
}

impl From<AllocError> for LineEnd {
    ghost from_gives = { λ _ e. e ≡ NoMemoryEnd };

    fn from(_: AllocError) -> Self {
        LineEnd::NoMemory
    }
}

/// Gives the lines of a source one after the other. Contracts see the bytes that were read and not
/// given yet, and how many were given.
#[derive(Drop)]
pub struct InputLines {
    ahead: VecDeque<u8>,
    given: usize,
}

impl Model for InputLines {
    ghost use Rattle.std.specs.Prelude.{◌≤◌};
    ghost use Rattle.input_lines.specs.Lines.{LinesView};
    ghost use Rattle.input_lines.specs.declared.lines.TheConstants.{MOST_INPUT_BYTES};

    ghost Value = { LinesView };

    ghost view = { λ l. record { ahead = l.ahead.items; given = l.given } };

    ghost invariant = { λ l. l.given ≤ MOST_INPUT_BYTES };
}

impl InputLines {
    /// Nothing was read yet. Takes no memory.
    pub fn new(alloc: Global) -> InputLines
        ensures { result ≡ first_lines }
    {
        InputLines {
            ahead: VecDeque::new(alloc),
            given: 0,
        }
    }

    // Reads the next piece, where none is ahead.
    fn refill<S: Source>(&mut self, alloc: Global, source: &mut S) -> Result<(), LineEnd>
        ensures same { OnOk result (Gave (place_of self.old (S.left source.old))
            (place_of self.new (S.left source.new)) []) }
        ensures within { self.new.given ≤ MOST_INPUT_BYTES }
        ensures end { OnOk result (self.new.ahead ≡ [] → IsAtEnd (S.left source.new)) }
        ensures counted { OnOk result (S.faults source.new ≡ S.faults source.old) }
        ensures fault { IsErrOf result LineEnd.Fault
            → Rose (S.faults source.old) (S.faults source.new) }
        ensures too_long { ¬ IsErrOf result LineEnd.TooLong }
        ensures no_memory { IsErrOf result LineEnd.NoMemory
            → S.faults source.new ≡ S.faults source.old }
    {
        if !self.ahead.is_empty() {
            return Ok(());
        }
        let mut piece = [0; PIECE];
        let count = source.read(&mut piece[..])?;
        let bytes = Vec::from_slice(alloc, &piece[..count])?;
        self.ahead = VecDeque::from(bytes);
        Ok(())
    }

    // The next byte of the input; none where it is over.
    #[tactic(auto, using(crate::proofs::Taken::came, crate::proofs::Taken::more_by_same))]
    fn next_byte<S: Source>(&mut self, alloc: Global, source: &mut S) -> Result<Option<u8>, LineEnd>
        ensures byte { IfOk result (λ next. MatchOption next
            ((IsOver (place_of self.old (S.left source.old)))
            × Gave (place_of self.old (S.left source.old))
            (place_of self.new (S.left source.new)) [])
            (λ byte. Gave (place_of self.old (S.left source.old))
            (place_of self.new (S.left source.new)) (byte ∷ []))) }
        ensures within { self.new.given ≤ MOST_INPUT_BYTES }
        ensures counted { OnOk result (S.faults source.new ≡ S.faults source.old) }
        ensures fault { IsErrOf result LineEnd.Fault
            → Rose (S.faults source.old) (S.faults source.new) }
        ensures too_long { IsErrOf result LineEnd.TooLong
            → HasMore (place_of self.old (S.left source.old)) }
        ensures full { IsErrOf result LineEnd.TooLong → self.old.given ≡ MOST_INPUT_BYTES }
        ensures too_long_counted { IsErrOf result LineEnd.TooLong
            → S.faults source.new ≡ S.faults source.old }
        ensures no_memory { IsErrOf result LineEnd.NoMemory
            → S.faults source.new ≡ S.faults source.old }
    {
        self.refill(alloc, source)?;
        let Some(byte) = self.ahead.pop_front() else {
            return Ok(None);
        };
        if self.given == MOST_INPUT_BYTES {
            return Err(LineEnd::TooLong);
        }
        self.given += 1;
        Ok(Some(byte))
    }

    /// The next line, without its line feed; none where the input is over. It has come whole then.
    /// (No more is read than the piece that ended it; no clause says it.) Errors: a failed source;
    /// a line of more than [`MOST_LINE_BYTES`], or one whose end isn't among the first
    /// [`MOST_INPUT_BYTES`] of the input; want of memory. Behind an error nothing is to be asked.
    #[tactic(auto, using(crate::proofs::Taken::one_more, crate::proofs::Taken::whole_line, crate::proofs::Taken::last_line, crate::proofs::Taken::long_line, crate::proofs::Taken::long_input))]
    pub fn next<S: Source>(
        &mut self,
        alloc: Global,
        source: &mut S,
    ) -> Result<Option<Vec<u8>>, LineEnd>
        ensures line { IfOk result (λ next. MatchOption next
            (IsOver (place_of self.old (S.left source.old)))
            (λ line. IsLineGiven (place_of self.old (S.left source.old))
            (place_of self.new (S.left source.new)) line.items)) }
        ensures counted { OnOk result (S.faults source.new ≡ S.faults source.old) }
        // No more bytes are given than an input may have.
        ensures within { self.new.given ≤ MOST_INPUT_BYTES }
        // A fault is answered only where one was counted in this call, and none is counted
        // otherwise.
        ensures fault { IsErrOf result LineEnd.Fault
            → Rose (S.faults source.old) (S.faults source.new) }
        ensures too_long { IsErrOf result LineEnd.TooLong
            → IsTooLong (place_of self.old (S.left source.old)) }
        ensures too_long_counted { IsErrOf result LineEnd.TooLong
            → S.faults source.new ≡ S.faults source.old }
        ensures no_memory { IsErrOf result LineEnd.NoMemory
            → S.faults source.new ≡ S.faults source.old }
    {
        let mut line = Vec::new(alloc);
        loop {
            let Some(byte) = self.next_byte(alloc, source)? else {
                return Ok(if line.is_empty() { None } else { Some(line) });
            };
            if byte == LINE_FEED {
                return Ok(Some(line));
            }
            if line.len() == MOST_LINE_BYTES {
                return Err(LineEnd::TooLong);
            }
            line.extend_from_slice(&[byte])?;
        }
    }
}
