// The lines that tell a verdict, one after another.
ghost use Rattle.std.specs.Prelude.{◌≡◌, ◌∷◌, [], MatchOption};
ghost use Rattle.collection_text.specs.Told.{seen, told_lines};

use crate::lines::{certificate_behind, split_first};
use crate::words::{claim_told, word};
use cert_text::Claim;
use std::marker::Model;

/// A line that tells a verdict, and the certificate behind it.
#[derive(Clone, Copy, Debug)]
pub struct ToldLine<'a> {
    /// The number of the problem's line, as it is written: digits.
    pub number: &'a [u8],
    /// What a certificate of this verdict claims: a mate, or an escape where there is no mate.
    pub claim: Claim,
    /// The bytes behind the line, up to the line `end` and with it; or, where no such line comes
    /// before, up to where the next ending is told, or to the end of the text.
    pub certificate: &'a [u8],
}

/// Goes over a text that collections printed. Contracts see the lines that tell a verdict and are
/// still to come.
#[derive(Drop)]
pub struct ToldLines<'a> {
    rest: &'a [u8],
}

impl<'a> Model for ToldLines<'a> {
    ghost use Rattle.std.specs.Prelude.{List};
    ghost use Rattle.collection_text.specs.Lines.{whole_lines};
    ghost use Rattle.collection_text.specs.Told.{ToldView, told_among};

    ghost Value = { List ToldView };

    ghost view = { λ here. told_among (whole_lines here.rest.now) };
}

impl<'a> ToldLines<'a> {
    /// The lines of a text. Takes no memory.
    pub fn new(text: &'a [u8]) -> ToldLines<'a>
        ensures { result ≡ told_lines text.now }
    {
        ToldLines { rest: text }
    }

    /// The next line that tells a verdict; none where there is none left. Takes no memory.
    pub fn next(&mut self) -> Option<ToldLine<'a>>
        ensures { MatchOption result ((self.old ≡ []) × (self.new ≡ [])) (λ line. self.old
            ≡ seen line ∷ self.new) }
    {
        while !self.rest.is_empty() {
            let (line, behind) = split_first(self.rest);
            self.rest = behind;
            if let Some(claim) = claim_told(line) {
                return Some(ToldLine {
                    number: word(line),
                    claim,
                    certificate: certificate_behind(behind),
                });
            }
        }
        None
    }
}
