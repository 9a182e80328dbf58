// The lines of a text that are neither a certificate's nor a bound's.
ghost use Rattle.std.specs.Prelude.{◌≡◌, ◌++◌, List, ℕ, IfSome, IfNone};
ghost use Rattle.std.specs.Fmt.{decimal};
ghost use Rattle.mate_facts.specs.declared.rank.Rank.{Rank};
ghost use Rattle.cert_text.specs.Entries.{line};
ghost use Rattle.cert_text.specs.Reading.{Lacks};

use cert_text::{behind, cut, rank_of_text};
use mate_facts::Rank;

// The number in the first line, which begins with these words, and what stands behind that line.
pub(crate) fn numbered_line<'a>(text: &'a [u8], words: &[u8]) -> Option<(Rank, &'a [u8])>
    requires { Lacks 10 words.now }
    ensures found { IfSome result
        (λ parts. text.now ≡ line (words.now ++ decimal parts.0.number) ++ parts.1.now) }
    ensures none { IfNone result ((rank : Rank) (rest : List ℕ)
        → text.now ≡ line (words.now ++ decimal rank.number) ++ rest → ⊥) }
{
    let Some((first, rest)) = cut(text, b'\n') else {
        return None;
    };
    let Some(digits) = behind(first, words) else {
        return None;
    };
    let Some(rank) = rank_of_text(digits) else {
        return None;
    };
    Some((rank, rest))
}
