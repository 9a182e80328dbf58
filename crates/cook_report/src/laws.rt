// What a valid report shows.
ghost use Rattle.cook_report.specs.Shown.{ReadableEscapesAreKept, ValidReportsShow};

use cert_check::valid_is_accepted;
use hand_dominance::listing_laws;
use mate_def::rank_grows;

/// A law: what the lines of a valid report show, and what its word says. Of a mate's line every
/// evasion to the check leads to a mate, so that the problem is one; of an escape's line its
/// evasion leads to none, so that the check doesn't mate. A sound problem has exactly one check
/// that mates, a cooked one two, and without a mate's line, all being known, the problem is no
/// mate. Does nothing; whoever uses a report calls it to know this. Takes no memory.
pub fn report_laws()
    ensures shows { ValidReportsShow }
    // What such a line lists keeps what it has to, where its certificate can be read.
    ensures kept { ReadableEscapesAreKept }
{
    // What mates' entries and escapes' positions are worth, and that a rank may be any greater one.
    listing_laws();
    valid_is_accepted();
    rank_grows();
}
