// What a call of the outside, or of the memory, answers where it can't do its work.
ghost use Rattle.std.specs.Prelude.{◌≡◌, ◌-◌, ◌^◌, ◌<◌, ◌≤◌, Ok, IfOk, OnOk, OnErr};
ghost use Rattle.tsume_io.specs.Faults.{Rose, one_more};

/// A read or a write failed, and moved no byte. The count of faults of its source or sink rose.
#[derive(Clone, Copy, Debug, PartialEq, Eq)]
pub struct Failed;

// One more, up to the last value, `u64::MAX`.
pub fn raised(count: u64) -> u64
    ensures value { result ≡ one_more count }
    ensures rose { Rose count result }
{
    count.saturating_add(1)
}

// What the outside answered, each of its errors counted as a fault, and an answer of fewer bytes
// than `least` too. It can't make an error of its own, since it knows nothing of the type.
pub fn counted<E: Drop>(
    answer: Result<usize, E>,
    least: usize,
    faults: &mut u64,
) -> Result<usize, Failed>
    ensures ok { IfOk result (λ n. (answer ≡ Ok n) × (least ≤ n)) }
    ensures err { OnErr result (IfOk answer (λ n. n < least)) }
    ensures same { OnOk result (faults.new ≡ faults.old) }
    ensures raised { OnErr result (faults.new ≡ one_more faults.old) }
    ensures rose { OnErr result (Rose faults.old faults.new) }
    ensures of_64_bits { faults.old ≤ 2 ^ 64 - 1 → faults.new ≤ 2 ^ 64 - 1 }
    ensures never_falls { faults.old ≤ faults.new }
{
    match answer {
        Ok(count) if count >= least => Ok(count),
        _ => {
            *faults = raised(*faults);
            Err(Failed)
        }
    }
}
