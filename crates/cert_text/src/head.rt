// Heads of certificates.
ghost use Rattle.std.specs.Prelude.{◌≡◌, ◌++◌, ◌↔◌, ℕ, List, IfSome, IfNone, IsTrue};
ghost use Rattle.hand_dominance.specs.declared.version.Version.{Version};
ghost use Rattle.cert_text.specs.declared.head.Claim.{Claim};
ghost use Rattle.cert_text.specs.declared.head.Title.{Title};
ghost use Rattle.cert_text.specs.Text.{claim_word, version_front, claim_text, title_text};
ghost use Rattle.cert_text.specs.Reading.{Lacks, IsFrontLine, IsReadCount, headed_text, IsHead};
ghost use Rattle.cert_text.specs.Scan.{AreMoves};

use crate::MOST_ENTRIES;
use crate::parts::{behind, cut, number_of_text};
use hand_dominance::Version;
use usi_text::read_move;

/// What a certificate claims of its problem.
#[derive(Clone, Copy, PartialEq, Eq, Debug)]
pub enum Claim {
    /// It is a mate.
    Mate,
    /// It is none.
    Escape,
}

impl Claim {
    /// Its word in a certificate's first line: `mate` or `escape`.
    pub fn word(self) -> &'static [u8]
        ensures { result.now ≡ claim_word self }
    {
        match self {
            Claim::Mate => b"mate",
            Claim::Escape => b"escape",
        }
    }

    fn is_same(self, with: Claim) -> bool
        ensures { IsTrue result ↔ (self ≡ with) }
    {
        self == with
    }
}

/// What a certificate's first line says of it, but for its number of entries.
#[derive(Clone, Copy, PartialEq, Eq, Debug)]
pub struct Title {
    /// The version that the certificate is of.
    pub version: Version,
    /// What it claims of its problem.
    pub claim: Claim,
}

// The two lines of a certificate's head, and what stands behind them.
#[derive(Clone, Copy)]
pub(crate) struct Head<'a> {
    pub(crate) title: Title,
    pub(crate) count: u32,
    // The SFEN text of the problem.
    pub(crate) sfen: &'a [u8],
    pub(crate) rest: &'a [u8],
}

// Whether these are moves, a space before each.
fn are_moves(text: &[u8]) -> bool
    ensures { IsTrue result ↔ AreMoves text.now }
{
    let Some(mut rest) = behind(text, b" ") else {
        return false;
    };
    while let Some((word, more)) = cut(rest, b' ') {
        if read_move(word).is_none() {
            return false;
        }
        rest = more;
    }
    read_move(rest).is_some()
}

// What the certificate behind this line claims, where it is a line that may stand in front of one.
fn claim_of_front(text: &[u8]) -> Option<Claim>
    ensures found { IfSome result (λ claim. IsFrontLine claim text.now) }
    ensures none { IfNone result ((claim : Claim) → IsFrontLine claim text.now → ⊥) }
{
    let Some(rest) = behind(text, b"checkmate") else {
        return None;
    };
    if rest == b" nomate".as_slice() {
        return Some(Claim::Escape);
    }
    if are_moves(rest) {
        return Some(Claim::Mate);
    }
    None
}

// The version whose front a line has, and the rest behind it.
fn version_of(text: &[u8]) -> Option<(Version, &[u8])>
    ensures found { IfSome result (λ found. text.now ≡ version_front found.0 ++ found.1.now) }
    ensures none { IfNone result ((version : Version) (rest : List ℕ) → text.now
        ≡ version_front version ++ rest → ⊥) }
{
    if let Some(rest) = behind(text, b"certificate 1 ") {
        return Some((Version::One, rest));
    }
    let rest = behind(text, b"certificate 2 ")?;
    Some((Version::Two, rest))
}

// The claim and the number of entries in what a first line has behind the version.
fn claim_of(text: &[u8]) -> Option<(Claim, u32)>
    ensures count { IfSome result (λ found. IsReadCount found.1) }
    ensures text { IfSome result (λ found. text.now ≡ claim_text found.0 found.1) }
    ensures none { IfNone result ((claim : Claim) (count : ℕ) → IsReadCount count → text.now
        ≡ claim_text claim count → ⊥) }
{
    if let Some(digits) = behind(text, b"mate ") {
        return Some((Claim::Mate, number_of_text(digits, MOST_ENTRIES)?));
    }
    let digits = behind(text, b"escape ")?;
    Some((Claim::Escape, number_of_text(digits, MOST_ENTRIES)?))
}

// The title and the number of entries in a first line.
fn title_of_line(text: &[u8]) -> Option<(Title, u32)>
    ensures count { IfSome result (λ found. IsReadCount found.1) }
    ensures text { IfSome result (λ found. text.now ≡ title_text found.0 found.1) }
    ensures none { IfNone result ((title : Title) (count : ℕ) → IsReadCount count → text.now
        ≡ title_text title count → ⊥) }
{
    let Some((version, rest)) = version_of(text) else {
        return None;
    };
    let Some((claim, count)) = claim_of(rest) else {
        return None;
    };
    Some((Title { version, claim }, count))
}

// The head at the front of a text without a front line.
fn bare_head_of(text: &[u8]) -> Option<Head<'_>>
    ensures count { IfSome result (λ head. IsReadCount head.count) }
    ensures sfen { IfSome result (λ head. Lacks 10 head.sfen.now) }
    ensures text { IfSome result (λ head. text.now
        ≡ headed_text head.title head.count head.sfen.now head.rest.now) }
    ensures none { IfNone result ((title : Title) (count : ℕ) (sfen rest : List ℕ)
        → IsReadCount count → Lacks 10 sfen → text.now ≡ headed_text title count sfen rest → ⊥) }
{
    let Some((first, more)) = cut(text, b'\n') else {
        return None;
    };
    let Some((title, count)) = title_of_line(first) else {
        return None;
    };
    let Some((second, rest)) = cut(more, b'\n') else {
        return None;
    };
    let Some(sfen) = behind(second, b"problem ") else {
        return None;
    };
    Some(Head {
        title,
        count,
        sfen,
        rest,
    })
}

// The head at the front of a text, perhaps behind a front line.
pub(crate) fn head_of(text: &[u8]) -> Option<Head<'_>>
    ensures found { IfSome result
        (λ head. IsHead head.title head.count head.sfen.now head.rest.now text.now) }
    ensures none { IfNone result ((title : Title) (count : ℕ) (sfen rest : List ℕ)
        → IsHead title count sfen rest text.now → ⊥) }
{
    let Some((first, more)) = cut(text, b'\n') else {
        return None;
    };
    let Some(claim) = claim_of_front(first) else {
        return bare_head_of(text);
    };
    let Some(head) = bare_head_of(more) else {
        return None;
    };
    if !head.title.claim.is_same(claim) {
        return None;
    }
    Some(head)
}
