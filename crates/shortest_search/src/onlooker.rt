// Who looks on while a length is looked for.
use search_gate::OpenGate;

/// Who is told how far a search by lengths has come, if he wants to hear it. Nothing is answered to
/// the search, so no result depends on it.
pub trait LengthOnlooker: Sync {
    /// Whether a mate takes so many of the attacker's moves or fewer is asked next; so many
    /// expansions were made by now.
    fn asks(&self, _moves: u32, _made: u64) {}

    /// The search has ended; so many expansions were made in all.
    fn ends(&self, _made: u64) {}
}

// Nobody looks on.
impl LengthOnlooker for OpenGate {}
