//! What is written as a KIF record is read as the same problem and moves.
//!
//! [`records_are_read_again`] is that law, over what `kif_record` writes and `kif_moves` reads.
//! Takes no memory.
#![tactic(auto)]

ghost use Rattle.kif_again.specs.Again.{RecordsAreReadAgain};

/// A law of KIF records: each stands for the problem and the moves that it was written of. Does
/// nothing; whoever writes one calls it to know this. Takes no memory.
pub fn records_are_read_again()
    ensures again { RecordsAreReadAgain }
{}
