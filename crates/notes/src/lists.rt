// What a rule takes of the notes under it: their height, their version, other owners of them, and
// their tags.
ghost use Rattle.std.specs.Prelude.{◌≡◌, ◌+◌, ◌<◌, ◌≤◌, ◌↔◌, max, IfOk, IsErr, Err};
ghost use Rattle.path_tags.specs.Tag.{IsRising};
ghost use Rattle.notes.specs.Derivation.{derivations, highest, later, version_by, version_under, IsNoLeaf};
ghost use Rattle.notes.specs.Valid.{AreValid, JoinsTags};
ghost use Rattle.notes.specs.declared.note.NoteEnd.TheVariants.{TooHigh};

use crate::note::HEIGHT_LIMIT;
use crate::{Note, NoteEnd, Rule};
use board_core::{Position, key};
use hand_dominance::Version;
use path_tags::Tag;
use std::alloc::{AllocError, Global};

// The greater of two heights.
fn greater(one: u32, another: u32) -> u32
    ensures { result ≡ max one another }
{
    if one < another { another } else { one }
}

/// The height of a note over these: one more than the greatest; refused where that is above 4,096.
pub(crate) fn height_over(notes: &[Note]) -> Result<u32, NoteEnd>
    ensures ok { IfOk result (λ height. (height ≡ highest notes.now + 1) × (height ≤ 4096)) }
    ensures high { IsErr result ↔ (4096 < highest notes.now + 1) }
    ensures cause { IsErr result → result ≡ Err TooHigh }
{
    let mut greatest = 0;
    for note in notes {
        greatest = greater(greatest, note.height());
    }
    if greatest >= HEIGHT_LIMIT {
        return Err(NoteEnd::TooHigh);
    }
    Ok(greatest + 1)
}

// The later of two versions.
fn later_of(one: Version, another: Version) -> Version
    ensures { result ≡ later one another }
{
    match one {
        Version::One => another,
        Version::Two => Version::Two,
    }
}

/// The version of a note by this rule, which isn't that of a leaf, over these.
pub(crate) fn version_over(rule: Rule, notes: &[Note]) -> Version
    requires { IsNoLeaf rule }
    ensures { result ≡ version_by rule (version_under (derivations notes.now)) }
{
    if let Rule::Carry(_) = rule {
        return Version::Two;
    }
    let mut version = Version::One;
    for note in notes {
        version = later_of(version, note.version());
    }
    version
}

/// Other owners of the same notes, in the same order.
pub(crate) fn shared(alloc: Global, notes: &[Note]) -> Result<Vec<Note>, AllocError>
    ensures notes { IfOk result (λ all. all.items ≡ notes.now) }
    ensures valid { IfOk result (λ all. AreValid (derivations all.items)) }
{
    let mut all = Vec::new(alloc);
    for note in notes {
        note.laws();
        all.push(note.share()?)?;
    }
    Ok(all)
}

/// The tag of an escape by all checks of a position: the keys of the notes' tags, but for the
/// position's own.
pub(crate) fn joined_tags(
    alloc: Global,
    position: &Position,
    notes: &[Note],
) -> Result<Tag, AllocError>
    ensures joins { IfOk result (λ tag. JoinsTags tag position.now notes.now) }
    ensures rises { IfOk result (λ tag. IsRising tag) }
{
    let own = key(position);
    let mut tag = Tag::empty(alloc);
    for note in notes {
        tag.add_without(alloc, note.tag(), &own)?;
    }
    tag.laws();
    Ok(tag)
}
