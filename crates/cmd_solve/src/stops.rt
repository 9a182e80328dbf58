// The stops of a search.
ghost use Rattle.std.specs.Prelude.{◌≡◌, map};
ghost use Rattle.search_gate.specs.Stop.{armed_with};

use search_gate::Stop;

/// Arms each stop, for a deadline of so many milliseconds or for none.
pub fn arm_each<T: Stop>(stops: &mut [T], after_ms: Option<u64>)
    ensures { map T.signal stops.new ≡ map (λ stop. armed_with (T.signal stop) after_ms) stops.old }
{
    for stop in stops.iter_mut() {
        stop.arm(after_ms);
    }
}

/// Arms each of these stops, for a deadline of so many milliseconds or for none.
pub fn arm_all<T: Stop>(stops: &mut Vec<T>, after_ms: Option<u64>)
    ensures { map T.signal stops.new.items
        ≡ map (λ signal. armed_with signal after_ms) (map T.signal stops.old.items) }
{
    arm_each(stops, after_ms);
}
