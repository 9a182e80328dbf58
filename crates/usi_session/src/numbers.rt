// Numbers in a line.
ghost use Rattle.std.specs.Prelude.{ℕ, IfSome, IfNone};
ghost use Rattle.usi_session.specs.Numbers.{Writes};

/// The number that a field writes, as one of an option on a command line: decimal digits, perhaps
/// behind a plus, of a number that 64 bits hold; none for any other field.
pub fn number_of(text: &[u8]) -> Option<u64>
    ensures found { IfSome result (λ number. Writes text.now number) }
    ensures none { IfNone result ((number : ℕ) → ¬ Writes text.now number) }
{
    match std::str::from_utf8(text) {
        Ok(digits) => digits.parse().ok(),
        Err(_) => None,
    }
}
