// What is true of all legal moves: each law is the clause of a call that does nothing.
ghost use Rattle.shogi_rules.specs.Laws.{LegalBoardMoves, LegalDrops};

/// Laws about legal moves: that nothing speaks against one says that it has what a legal move has.
/// Does nothing; whoever makes moves without asking [`legal`](crate::legal) calls it to know this.
/// Takes no memory.
pub fn legal_laws()
    ensures board { LegalBoardMoves }
    ensures drops { LegalDrops }
{}
