// What is true of all squares, kinds and moves: each law is the clause of a call that does nothing.
ghost use Rattle.board_core.specs.Laws.{SquaresApart};
ghost use Rattle.board_core.specs.Laws.{PlacesApart, PlacesInHand};
ghost use Rattle.board_core.specs.Laws.{BuiltOnce, LettersApart};
ghost use Rattle.board_core.specs.Order.{OrdersApart, OrdersByOrigin, OrdersWithin, PlacesInOrder};

/// Laws about squares and kinds: no two squares have one number, and no two kinds one place in
/// their order or one letter; those that can stand in a hand have the first seven places. Does
/// nothing; whoever tells squares or kinds apart by these calls it to know this. Takes no memory.
pub fn value_laws()
    ensures squares { SquaresApart }
    ensures places { PlacesApart }
    ensures in_hand { PlacesInHand }
    ensures letters { LettersApart }
{}

/// Laws about the order of moves: no two moves have one place in it, the moves from a square lie
/// among 162 places of its own, there are 13,770 places in all, and in a list in this order a move
/// that comes before another in the order stands before it. Does nothing; whoever lists moves calls
/// it to know this. Takes no memory.
pub fn order_laws()
    ensures apart { OrdersApart }
    ensures origins { OrdersByOrigin }
    ensures within { OrdersWithin }
    ensures places { PlacesInOrder }
{}

/// A law about what is built of cells, hands and a side: it is one position, or has one first
/// fault. Does nothing; whoever says of a text what it stands for calls it to know this. Takes no
/// memory.
pub fn build_laws()
    ensures once { BuiltOnce }
{
    // No two squares have one number, and no two kinds one place: so no two faults have one place
    // in their order.
    value_laws();
}
