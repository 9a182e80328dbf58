//! What the program knows of the outside world: a source of bytes and a sink for bytes. Code that
//! is generic over these traits reaches nothing else, and can't raise a count of faults itself, so
//! "a fault only where the count rose" rules out a body that gives up (but where the count stands
//! at its last value).
//!
//! `read_all` and `write_all` are the two calls that the layers above make. `StdSource` and
//! `StdSink` adapt std's readers and writers, and `StdClock` its clock; `Opened` and `Remembering`
//! are readers for a file that may not open; `MemSource`, `MemSink` and `NeverFails` stand in
//! memory.
#![tactic(auto)]

mod clock;
mod copy;
mod fault;
mod memory;
mod never_fails;
mod opened;
mod script;
mod sink;
mod source;
mod standard;

pub use clock::StdClock;
pub use fault::Failed;
pub use memory::{MemSink, MemSource};
pub use never_fails::NeverFails;
pub use opened::{Opened, Remembering};
pub use sink::{Sink, WriteFault, write_all};
pub use source::{ReadEnd, Source, read_all};
pub use standard::{StdSink, StdSource};
