// The thread that reads ahead.

use crate::hearing::Hearing;
use crate::held::End;
use crate::line::{Line, Said};
use crate::passage::Passage;
use search_gate::Clock;
use std::io::{self, Read};
use std::sync::{Arc, Wait};

// How many bytes one read asks for, at most.
const PIECE: usize = 65_536;

// The reading thread.
#[derive(Drop)]
pub struct Reader<I, C> {
    input: I,
    clock: C,
    line: Line,
    has_left: bool,
    passage: Arc<Passage>,
    hearing: Arc<Hearing>,
}

impl<I: Read + Drop, C: Clock + Drop> Reader<I, C> {
    // Nothing was read yet.
    pub fn new(input: I, clock: C, passage: Arc<Passage>, hearing: Arc<Hearing>) -> Reader<I, C> {
        Reader {
            input,
            clock,
            line: Line::new(),
            has_left: false,
            passage,
            hearing,
        }
    }

    // Says what a line said, or the end.
    fn hear(&mut self, said: Said) {
        match said {
            Said::Stop => self.hearing.stop_was_read(),
            Said::Quit => self.leave(),
            Said::Nothing => {}
        }
    }

    // The input was left: by `quit`, its end, or since it failed.
    fn leave(&mut self) {
        if !self.has_left {
            self.has_left = true;
            self.hearing.was_left(self.clock.now());
        }
    }

    // Hears what these bytes say, which come next.
    fn hear_all(&mut self, piece: &[u8]) {
        for byte in piece {
            let said = self.line.see(*byte);
            self.hear(said);
        }
    }

    // No more bytes come: the last line may lack its line feed.
    fn hear_end(&mut self) {
        let said = self.line.said();
        self.hear(said);
        self.leave();
    }

    // Reads on till the end, or till the reader fails. What a line says is heard before its bytes
    // can be handed on.
    pub fn run<W: Wait>(&mut self, rt: &W) {
        let mut space = [0; PIECE];
        for _ in rt.forever() {
            let end = match self.input.read(&mut space) {
                Ok(0) => End::Over,
                Err(reason) => End::Failed(reason),
                Ok(count) => {
                    let piece = &space[..count];
                    self.hear_all(piece);
                    match self.passage.put(rt, piece) {
                        Ok(()) => continue,
                        Err(_) => End::Failed(io::Error::from(io::ErrorKind::OutOfMemory)),
                    }
                }
            };
            self.hear_end();
            self.passage.finish(rt, end);
            break;
        }
    }
}
