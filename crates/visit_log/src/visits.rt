// What is true of all visit logs and of every worker's log: each law is the clause of a call that
// does nothing.
ghost use Rattle.visit_log.specs.Laws.{LogsBegin, LogsAreWhole, LogsAreBrackets, OneClaimAVisit, EndsHaveCauses};

/// Laws about visit logs: whatever happens to a worker, its log is the beginning of a visit log,
/// and a visit log where it has ended; in a visit log each Leave leaves what was entered last and
/// not left yet, and at its end everything is left; room is asked for no more often than visits are
/// given; and each end has its cause: that of an end as too high is a note that would have been so,
/// of which it says in which visit it wasn't made, by which rule, and from which notes. Does
/// nothing; whoever asks what a worker's log says calls it to know this. Takes no memory.
pub fn visit_laws()
    ensures begin { LogsBegin }
    ensures whole { LogsAreWhole }
    ensures brackets { LogsAreBrackets }
    ensures one_claim { OneClaimAVisit }
    ensures causes { EndsHaveCauses }
{}
