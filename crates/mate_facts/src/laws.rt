// What is true of all entries of a mate.
ghost use Rattle.mate_facts.specs.Laws.{EntriesStand, EntriesAreListed, EntriesApart, EntriesAreFound};

/// Laws about a mate's entries: where they and their positions stand. Does nothing; whoever looks
/// entries up calls it to know this.
pub fn entry_laws()
    // An entry's position stands at the entry's place, so it is listed.
    ensures stand { EntriesStand }
    ensures listed { EntriesAreListed }
    // Where no position stands twice, entries of one position are one entry.
    ensures apart { EntriesApart }
    // The entry at a place where a position stands has that position.
    ensures found { EntriesAreFound }
{}
