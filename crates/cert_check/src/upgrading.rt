// Certificates brought to version 2.
ghost use Rattle.std.specs.Prelude.{◌≡◌};
ghost use Rattle.board_core.specs.Board.{Board};
ghost use Rattle.cert_check.specs.Upgraded.{upgraded};
ghost use Rattle.cert_check.specs.Valid.{IsValid};

use cert_text::Certificate;
use hand_dominance::{Version, listing_laws};

/// The certificate in version 2, with the same claim, problem and entries. Where it is valid it
/// stays so: what is said in version 1 is so in version 2. Takes no memory.
pub fn upgrade(certificate: Certificate) -> Certificate
    ensures same { result ≡ upgraded certificate }
    ensures valid { (p : Board) → IsValid certificate p → IsValid result p }
{
    listing_laws();
    match certificate {
        Certificate::Mate(mate) => Certificate::Mate(mate.in_version(Version::Two)),
        Certificate::Escape(escape) => Certificate::Escape(escape.in_version(Version::Two)),
    }
}
