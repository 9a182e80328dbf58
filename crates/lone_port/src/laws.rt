// What is true of every request.
ghost use Rattle.lone_port.specs.Keeps.{TurnsAreCounted};

/// A law: each request that a worker may ask, and its answer, keep what is kept of a table and a
/// desk, and change what they count by what it enters, leaves and gives. Does nothing; whoever
/// reads a world calls it to know this. Takes no memory.
#[tactic(auto, using(crate::proofs::Counted::turns_counted))]
pub fn turn_laws()
    ensures { TurnsAreCounted }
{}
