// What may happen in a world.

/// What may happen in a world of workers. Workers are numbered from 1; an event of a worker that
/// isn't there, or that has ended, changes nothing.
#[derive(Clone, Copy, PartialEq, Eq, Debug)]
pub enum Event {
    /// The worker's request is answered.
    Step(u32),
    /// A stop is signalled to the worker: its next poll is told so.
    Raise(u32),
    /// The worker is starved: from here on it leaves what it has entered, and ends for want of
    /// memory.
    Starve(u32),
}
