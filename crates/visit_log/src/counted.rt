// What a worker counts: each law is a clause of a call that does nothing.
ghost use Rattle.visit_log.specs.Laws.{
  SlotsMove,
  SizesMove,
  LeavesOwn,
  LeavesSome,
  StarvingMovesNothing,
  VisitsMove,
  WorkersAreCounted,
  LessToCome,
  CountsOfLogs,
};

/// Laws about what a worker counts. Each answer changes its own slots, and their number, by what it
/// enters and leaves; what it asks to leave is its own; want of memory changes no slots, drawn
/// visits or room. Visits and room are counted by the answers that give them; it has no more visits
/// going on, no more slots and no more room than it has drawn visits, at most a billion. With each
/// answer less is still to come; and its visits and its room are those that its log gives. Does
/// nothing; whoever runs a worker calls it to know this. Takes no memory.
pub fn count_laws()
    ensures slots { SlotsMove }
    ensures sizes { SizesMove }
    ensures own { LeavesOwn }
    ensures own_some { LeavesSome }
    ensures starving { StarvingMovesNothing }
    ensures visits { VisitsMove }
    ensures counted { WorkersAreCounted }
    ensures less { LessToCome }
    ensures logged { CountsOfLogs }
{
    board_core::order_laws();
}
