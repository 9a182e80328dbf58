// What is true of all lines and sessions.
ghost use Rattle.usi_session.specs.Laws.{SpacesPartFields, WordsAreFields, SfenStandsBehind, OneAct, SolvesAreOwn, OneSession, OneListOfActs, OneLineMore, NothingBehindEnd};

use sfen_text::sfen_laws;
use usi_text::move_laws;

/// Laws about the fields of lines: a space parts those before it from those behind it, what has no
/// space is one, and what stands behind `position sfen ` is what the SFEN is cut from, up to
/// `moves`. Does nothing; whoever speaks of what a line says calls it to know this. Takes no
/// memory.
pub fn line_laws()
    ensures spaces { SpacesPartFields }
    ensures words { WordsAreFields }
    ensures sfens { SfenStandsBehind }
{}

/// Laws about sessions: at each line a session does one thing at most, and over lines one list of
/// things; what it has solved is its own problem with its own options. A session that goes on does
/// at one more line what it does there, and lines behind its end change nothing. That there is
/// something to be done at each line is a clause of [`Session::line`](crate::Session::line). Does
/// nothing; whoever speaks of what a session does calls it to know this. Takes no memory.
pub fn session_laws()
    ensures act { OneAct }
    ensures own { SolvesAreOwn }
    ensures session { OneSession }
    ensures acts { OneListOfActs }
    ensures further { OneLineMore }
    ensures over { NothingBehindEnd }
{
    // No text spells two positions, or has two faults; and none is two moves'.
    sfen_laws();
    move_laws();
}
