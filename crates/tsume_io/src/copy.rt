// Bytes from one place to another.
ghost use Rattle.std.specs.Prelude.{◌≡◌, ◌++◌, min, length, take, drop};

// Copies as many bytes as both have to the front of `into`, and answers how many.
pub fn copy_front(from: &[u8], into: &mut [u8]) -> usize
    ensures count { result ≡ min (length from.now) (length into.old) }
    ensures copied { into.new ≡ take result from.now ++ drop result into.old }
{
    let count = from.len().min(into.len());
    into[..count].copy_from_slice(&from[..count]);
    count
}
