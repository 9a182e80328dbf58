// What is true of every step, and of every schedule.
ghost use Rattle.world_play.specs.Promises.{StepsKeepEntered, EventsKeepWorlds, PlaysKeepEntered};

use lone_port::turn_laws;
use visit_log::{count_laws, sound_laws};

/// Laws: no step of a world gives up an entry that a visit has entered; whatever happens in a
/// world, it stays as a [`World`](crate::World) keeps it; and so no event in the midst of a
/// schedule gives up such an entry. Does nothing; whoever reads a world's log calls it to know
/// this. Takes no memory.
pub fn step_laws()
    ensures steps { StepsKeepEntered }
    ensures kept { EventsKeepWorlds }
    ensures plays { PlaysKeepEntered }
{
    turn_laws();
    sound_laws();
    count_laws();
}
