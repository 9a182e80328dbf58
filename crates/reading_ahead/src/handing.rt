// What is handed on of the bytes that were read.
ghost use Rattle.reading_ahead.specs.Handing.{IsFrontOf};

// How many bytes of the front are handed on, where there is place for so many.
pub fn handed_on(from: &[u8], place: usize) -> usize
    ensures { IsFrontOf from.now place result }
{
    let most = from.len().min(place);
    match from[..most].iter().position(|byte| *byte == b'\n') {
        Some(at) => at + 1,
        None => most,
    }
}
