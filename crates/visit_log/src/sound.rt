// What holds of every worker wherever it stands.
ghost use Rattle.visit_log.specs.Laws.{
  StaysSound,
  WorkersAreSound,
  AsksSound,
  OpenedIsSound,
  LookedIsSound,
  BackIsSound,
  AsksItsEnd,
  PathsHaveNoRepeats,
};

/// Laws about what a worker knows: what happens to a sound worker leaves it sound; so every worker
/// is sound wherever it stands, and the note that it posts holds on every path; what a sound worker
/// asks keeps the promises of its requests; and what a visit knows is sound when its successors are
/// listed, when one is looked at, and when the visit of one has ended. A worker asks for its end
/// exactly where it has ended, and no key stands twice on its path. Does nothing; whoever makes a
/// worker calls it to know this. Takes no memory.
pub fn sound_laws()
    ensures stays { StaysSound }
    ensures reached { WorkersAreSound }
    ensures asks { AsksSound }
    ensures opened { OpenedIsSound }
    ensures looked { LookedIsSound }
    ensures back { BackIsSound }
    ensures ends { AsksItsEnd }
    ensures paths { PathsHaveNoRepeats }
{}
