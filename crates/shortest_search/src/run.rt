// The state of a search, and why it ends without an answer.
ghost use Rattle.std.specs.Prelude.{◌≡◌, ◌≤◌};
ghost use Rattle.search_gate.specs.Polls.{IsPolledForEach};
ghost use Rattle.shortest_facts.specs.Keys.{known_of};
ghost use Rattle.shortest_facts.specs.Facts.{AreBorneOut};
ghost use Rattle.shortest_search.specs.declared.run.VisitEnd.TheVariants.{NoMemory, Spent, Stopped};
ghost use Rattle.shortest_search.specs.Visit.{GoesOn, IsStopped};

use search_gate::Stop;
use shortest_facts::Facts;
use std::alloc::{AllocError, AllocFailed, Global};

/// Why a search for the shortest mate ends without an answer.
#[derive(Clone, Copy, PartialEq, Eq, Debug)]
pub enum VisitEnd {
    /// All expansions were made.
    Spent,
    /// It was stopped from outside.
    Stopped,
    /// Memory was wanted and not there.
    NoMemory,
}

impl From<AllocError> for VisitEnd {
    ghost from_gives = { λ _ end. end ≡ NoMemory };

    fn from(_error: AllocError) -> VisitEnd {
        VisitEnd::NoMemory
    }
}

impl<T: Drop> From<AllocFailed<T>> for VisitEnd {
    ghost from_gives = { λ _ end. end ≡ NoMemory };

    fn from(_error: AllocFailed<T>) -> VisitEnd {
        VisitEnd::NoMemory
    }
}

/// A search for the shortest mate: what is known by now, and how much of it was done.
#[derive(Drop)]
pub struct Run {
    /// Where its memory comes from.
    pub alloc: Global,
    /// What is known of the lengths of mates.
    pub facts: Facts,
    /// How many expansions were made.
    pub made: u64,
    /// How many may be made at most.
    pub most: u64,
}

impl Run {
    // One expansion more, where one is left and the stop says nothing. It is polled only then.
    pub(crate) fn begin<T: Stop>(&mut self, stop: &mut T) -> Result<(), VisitEnd>
        requires borne_out { AreBorneOut (known_of self.old.facts) }
        requires within { self.old.made ≤ self.old.most }
        ensures facts { self.new.facts ≡ self.old.facts }
        ensures goes_on { GoesOn self.old self.new }
        ensures spent { result ≡ Err Spent → self.new.made ≡ self.new.most }
        ensures stopped { IsStopped result (T.signal stop.old) (T.signal stop.new) }
        ensures polled { IsPolledForEach self.old.made self.new.made (T.signal stop.old)
            (T.signal stop.new) }
    {
        if self.made >= self.most {
            return Err(VisitEnd::Spent);
        }
        if stop.poll() {
            return Err(VisitEnd::Stopped);
        }
        self.made += 1;
        Ok(())
    }
}
