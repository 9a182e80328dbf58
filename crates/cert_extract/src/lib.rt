//! From a closed note to the certificate of what it says.
//!
//! A search by proof numbers ends with a note about the problem: a derivation whose tree may be
//! read many times over, since notes share what is under them. [`extract`] walks it, each position
//! once, or again where a mate is shorter, and lists the attacker's positions that it meets, for a
//! carried note that of the note that it was carried from. What comes out is a valid certificate,
//! of the kind that the note concludes, that anybody can check without the note; it is of version 2
//! exactly where a note is carried in the tree, or a leaf of it is of that version, since a listed
//! position stands for others there. For a leaf of a mate it lists the leaf's own entry and those
//! of lower rank that stand with it, for a leaf of an escape all positions that do. It
//! has no more entries than the caller asks for, so that whoever reads no more can read it; where
//! the walk meets more of the attacker's positions than that, it ends at the first one too many,
//! and nothing comes out ([`ExtractEnd::TooMany`]). The other way round, [`leaves`] makes notes of
//! what a valid certificate lists.
#![tactic(auto)]

ghost use Rattle.std.specs.Prelude.{◌≡◌, ◌≤◌, [], IfOk, IfErr, length};
ghost use Rattle.notes.specs.Derivation.{position_of, attacker_of, tag_of, conclusion_of, version_in};
ghost use Rattle.cert_text.specs.declared.limits.TheConstants.{MOST_ENTRIES};
ghost use Rattle.cert_text.specs.Kinds.{claim_of, positions_in, version_of};
ghost use Rattle.cert_text.specs.Reading.{IsReadable};
ghost use Rattle.cert_check.specs.Valid.{IsValid};
ghost use Rattle.cert_extract.specs.Extracted.{claim_by, ComesFrom, IsEndFor};

mod ends;
mod escape;
mod known;
mod leaf;
mod listing;
mod mate;
mod steps;

use cert_order::{escape_certificate, mate_certificate};
use cert_text::Certificate;
pub use ends::ExtractEnd;
pub use known::leaves;
use notes::{Conclusion, Note};
use shogi_rules::Problem;
use std::alloc::Global;

/// The certificate of what a note says that depends on no repetition and is about the problem, for
/// its attacker. It is a mate's or an escape's as the note concludes, and valid for the problem. It
/// lists positions of the attacker that notes of the note's tree are about, carried notes left out:
/// a mate's each with the check of one of these notes, and half its height as the rank; for a leaf
/// its own entry and those of lower rank of its set, or all positions of it. It is of version 2
/// where a note is carried in the tree or a leaf is of that version, else of version 1. The tree is
/// walked depth first, in the order of the notes, and from a carried note to the one that it was
/// carried from; a position that is met again is walked again only where the note is a lower mate.
/// It lists `most` positions at most, and one at least, which stands for the problem's. Errors: the
/// walk meets more than `most` different positions (always, where `most` is 0), not counting those
/// that stand only under notes that it passes by; want of memory.
pub fn extract(
    alloc: Global,
    problem: &Problem,
    note: &Note,
    most: usize,
) -> Result<Certificate, ExtractEnd>
    requires closed { tag_of note.now ≡ [] }
    requires about { position_of note.now ≡ problem.now.position }
    requires same_attacker { attacker_of note.now ≡ problem.now.position.side }

    // It is of the kind that the note concludes, valid for the problem, which it is about, and of
    // version 2 exactly where a note is carried in the note's tree, or a leaf is of version 2.
    ensures kind { IfOk result (λ certificate. claim_of certificate
        ≡ claim_by (conclusion_of note.now)) }
    ensures valid { IfOk result (λ certificate. IsValid certificate problem.now.position) }
    ensures version { IfOk result (λ certificate. version_of certificate
        ≡ version_in note.now) }

    // Whatever it lists comes from a note of the tree.
    ensures from { IfOk result (λ certificate. ComesFrom note.now certificate) }

    // It lists no more than asked for; so it can be read once it is written, where no more is asked
    // for than is read.
    ensures count { IfOk result (λ certificate. length (positions_in certificate) ≤ most) }
    ensures readable { most ≤ MOST_ENTRIES → IfOk result IsReadable }

    // It is refused only where a walk of the note's tree meets more of the attacker's positions
    // than that; such a walk goes on from notes that it walks alone, and walks no position again
    // but by a lower mate.
    ensures too_many { IfErr result (IsEndFor most problem.now.position note.now) }
{
    note.laws();
    let version = note.version();
    let first = note.source();
    match note.conclusion() {
        Conclusion::Mate => {
            let entries = mate::entries(alloc, problem, version, first, most)?;
            Ok(Certificate::Mate(mate_certificate(alloc, problem, version, &entries)?))
        }
        Conclusion::Escape => {
            let positions = escape::positions(alloc, problem, version, first, most)?;
            Ok(Certificate::Escape(escape_certificate(alloc, problem, version, &positions)?))
        }
    }
}
