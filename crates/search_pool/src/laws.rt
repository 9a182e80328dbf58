// What is true of every search with one worker.
ghost use Rattle.search_pool.specs.Laws.{AloneGoesOneWay, AloneHasOneAnswer, FilledGoesOneWay, FilledHasOneAnswer};

use board_core::order_laws;
use path_tags::tag_laws;

/// Laws: two searches of one problem with one worker and the same settings, neither of which ends
/// for want of memory, ask and are told the same, and their tables, desks and workers stand the
/// same at the end; so they have one answer. Does nothing; whoever compares two answers calls it to
/// know this. Takes no memory.
pub fn alone_laws()
    ensures one_way { AloneGoesOneWay }
    ensures one_answer { AloneHasOneAnswer }
    // So do two that begin from the same notes.
    ensures filled_one_way { FilledGoesOneWay }
    ensures filled_one_answer { FilledHasOneAnswer }
{
    order_laws();
    tag_laws();
}
