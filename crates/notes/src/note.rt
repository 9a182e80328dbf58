// A note, and how one is made over others.
ghost use Rattle.std.specs.Prelude.{◌≡◌, ◌+◌, ◌≤◌, ◌↔◌, [], IfOk, IsTrue};
ghost use Rattle.notes.specs.Derivation.{derivations, derived, none_under, step_among, step_over, note_over, height_by, conclusion_of, rule_of, attacker_of, position_of, tag_of, height_of, source_of, under_of, version_by, version_in, IsNoLeaf, IsOwn};
ghost use Rattle.notes.specs.Valid.{IsInPlay, IsValid, AreValid, StandsAmong, meets};
ghost use Rattle.notes.specs.Set.{entries_of, positions_of, ranked_of};
ghost use Rattle.notes.specs.Truth.{IsTrueNote, NotesAreTrue};
ghost use Rattle.hand_dominance.specs.declared.version.Version.TheVariants.{One};
ghost use Rattle.notes.specs.Standing.{AreEntriesAbout, ArePositionsAbout};
ghost use Rattle.notes.specs.declared.note.NoteEnd.TheVariants.{NoMemory};

use crate::lists::version_over;
use crate::set::Set;
use crate::{Conclusion, Rule};
use board_core::{Position, Side};
use hand_dominance::Version;
use mate_facts::MateEntry;
use path_tags::Tag;
use std::alloc::{AllocError, Global};
use std::marker::Model;
use std::mem::size_of;
use std::sync::Arc;

// What a note takes, beside the places of the notes under it, the keys of its tag, and the two
// counts of its owners.
const _: () = prove!(size_of::<Node>() <= 288);

/// The greatest height that a note can have.
pub const HEIGHT_LIMIT: u32 = 4096;

/// Why a note wasn't made.
#[derive(Clone, Copy, PartialEq, Eq, Debug)]
pub enum NoteEnd {
    /// Its height would be above 4,096.
    TooHigh,
    /// There was no memory.
    NoMemory,
}

impl From<AllocError> for NoteEnd {
    ghost from_gives = { λ _ end. end ≡ NoMemory };

    fn from(_: AllocError) -> NoteEnd {
        NoteEnd::NoMemory
    }
}

/// A fact about a position, with its derivation: a tree of steps, each by one of ten rules. Notes
/// share the notes under them; another owner of one is made by [`Note::share`].
///
/// It keeps that each step meets its rule, and that no height is above 4,096.
#[cycle(note)]
#[derive(Drop)]
pub struct Note {
    node: Arc<Node>,
}

// One step, and the notes under it.
#[cycle(note)]
#[derive(Drop)]
struct Node {
    position: Position,
    under: Vec<Note>,
    tag: Tag,
    height: u32,
    rule: Rule,
    attacker: Side,
    // The version of a certificate that says what the note does.
    version: Version,
    // What a leaf's position is listed among.
    set: Option<Arc<Set>>,
}

impl Model for Note {
    ghost use Rattle.std.specs.Coded.{codes};
    ghost use Rattle.std.proofs.Common.{arith};
    ghost use Rattle.notes.specs.Derivation.{Derivation, derivations, derived, step_among, steps_of};
    ghost use Rattle.notes.specs.Code.{coded_derivation};
    ghost use Rattle.notes.specs.Valid.{Keeps};
    ghost use Rattle.notes.specs.Set.{entries_with, positions_with, ranked_with};
    ghost use Rattle.notes.specs.Steps.{most_le-steps};

    ghost Value = { Derivation };

    ghost coded = { coded_derivation (Prim.hlevel codes) };

    ghost view = { λ n. derived (step_among n.node.value.rule n.node.value.attacker n.node.value.position n.node.value.tag n.node.value.height (ranked_with n.node.value.set)) (derivations n.node.value.under.items) };

    ghost invariant = { λ n. Keeps (derived (step_among n.node.value.rule n.node.value.attacker n.node.value.position n.node.value.tag n.node.value.height (ranked_with n.node.value.set)) (derivations n.node.value.under.items)) n.node.value.version (entries_with n.node.value.set) (positions_with n.node.value.set) };

    ghost size = { steps_of };

    ghost size_decreases = { λ n h. omega (arith, most_le-steps n.node.value.under.items) };
}

impl Note {
    /// A note by a rule over notes, which is no leaf. Takes memory for it alone.
    pub(crate) fn made(
        alloc: Global,
        rule: Rule,
        attacker: Side,
        position: &Position,
        tag: Tag,
        height: u32,
        under: Vec<Note>,
    ) -> Result<Note, AllocError>
        requires valid { AreValid (derivations under.items) }
        requires play { IsInPlay attacker position.now }
        requires rule { meets rule (step_over rule attacker position.now tag height) under.items }
        requires no_leaf { IsNoLeaf rule }
        requires height { height ≡ height_by rule under.items }
        requires low { height ≤ 4096 }
        ensures { IfOk result (λ note. note
            ≡ note_over rule attacker position.now tag height under.items) }
    {
        position.laws();
        tag.laws();
        let version = version_over(rule, &under);
        let node = Node {
            position: *position,
            under,
            tag,
            height,
            rule,
            attacker,
            version,
            set: None,
        };
        Ok(Note {
            node: Arc::new(alloc, node)?,
        })
    }

    /// A leaf, which stands among others of a set; and another owner of that. Takes memory for it
    /// alone.
    pub(crate) fn leaf(
        alloc: Global,
        rule: Rule,
        attacker: Side,
        position: &Position,
        height: u32,
        version: Version,
        set: &Arc<Set>,
    ) -> Result<Note, AllocError>
        requires play { IsInPlay attacker position.now }
        requires rule { meets rule (step_among rule attacker position.now [] height
            (ranked_of set.now.value)) [] }
        requires leaf { ¬ IsNoLeaf rule }
        requires height { height ≡ height_by rule [] }
        requires low { height ≤ 4096 }
        requires version { version ≡ version_by rule One }
        requires set { StandsAmong rule attacker position.now (entries_of set.now.value)
            (positions_of set.now.value) }
        ensures { IfOk result (λ note. note ≡ derived (step_among rule attacker position.now []
            height (ranked_of set.now.value)) none_under) }
    {
        position.laws();
        let tag = Tag::empty(alloc);
        tag.laws();
        let node = Node {
            position: *position,
            under: Vec::new(alloc),
            tag,
            height,
            rule,
            attacker,
            version,
            set: Some(Arc::try_clone(set)?),
        };
        Ok(Note {
            node: Arc::new(alloc, node)?,
        })
    }

    /// The same note, for another owner. Takes no memory but a place in the count of its owners; an
    /// error where that is full.
    pub fn share(&self) -> Result<Note, AllocError>
        ensures { IfOk result (λ note. note ≡ self.now) }
    {
        Ok(Note {
            node: Arc::try_clone(&self.node)?,
        })
    }

    /// What it says of its position. Takes no memory.
    pub fn conclusion(&self) -> Conclusion
        ensures { result ≡ conclusion_of self.now }
    {
        self.node.rule.conclusion()
    }

    /// The rule of its last step. Takes no memory.
    pub fn rule(&self) -> Rule
        ensures { result ≡ rule_of self.now }
    {
        self.node.rule
    }

    /// The side that attacks. Takes no memory.
    pub fn attacker(&self) -> Side
        ensures { result ≡ attacker_of self.now }
    {
        self.node.attacker
    }

    /// The position that it is about. Takes no memory.
    pub fn position(&self) -> &Position
        ensures { result.now ≡ position_of self.now }
    {
        &self.node.position
    }

    /// The keys of the positions on whose repetition it depends, in order. Takes no memory.
    pub fn tag(&self) -> &Tag
        ensures { result.now ≡ tag_of self.now }
    {
        &self.node.tag
    }

    /// How high its tree is: as high as the note that it carries, where it carries one; twice the
    /// rank of a mate's leaf; else 1 more than the greatest height under it, 1 where nothing is; at
    /// most 4,096. Takes no memory.
    pub fn height(&self) -> u32
        ensures { result ≡ height_of self.now }
    {
        self.node.height
    }

    /// Whether it depends on no repetition: its tag is empty. Takes no memory.
    pub fn is_closed(&self) -> bool
        ensures { IsTrue result ↔ (tag_of self.now ≡ []) }
    {
        self.node.tag.is_empty()
    }

    /// The notes under its last step, in the order of the moves that lead to them. Takes no memory.
    pub fn under(&self) -> &[Note]
        ensures { result.now ≡ under_of self.now }
    {
        self.node.under.as_slice()
    }

    /// The version of a certificate that says what it does: [`Version::Two`] exactly where a note
    /// is carried in its tree, or a leaf of it is of that version. Takes no memory.
    pub fn version(&self) -> Version
        ensures { result ≡ version_in self.now }
    {
        self.node.version
    }

    /// The entries among which a mate's leaf is listed, with its rank: each is about a problem of
    /// the attacker, and borne out by all of them. None where it is no such leaf. Takes no memory.
    pub fn entries(&self) -> &[MateEntry]
        ensures { AreEntriesAbout self.now result.now }
    {
        match &self.node.set {
            Some(set) => set.entries(),
            None => &[],
        }
    }

    /// The positions among which an escape's leaf is listed: problems of the attacker, and closed.
    /// None where it is no such leaf. Takes no memory.
    pub fn positions(&self) -> &[Position]
        ensures { ArePositionsAbout self.now result.now }
    {
        match &self.node.set {
            Some(set) => set.positions(),
            None => &[],
        }
    }

    /// The note that it was carried from, whose last step carries none; itself where it carries
    /// none. Takes no memory.
    pub fn source(&self) -> &Note
        ensures source { result.now ≡ source_of self.now }
        ensures own { IsOwn result.now }
    {
        self.laws();
        let mut note = self;
        while let Rule::Carry(_) = note.rule() {
            note = &note.under()[0];
        }
        note
    }

    /// Laws: what every note keeps and says. A mate where the attacker is to move is a mate within
    /// half its height; where the defender is to move, each evasion leads to a mate within half its
    /// height, rounded down. An escape where the attacker is to move is one into any positions that
    /// stand for its tag; where the defender is to move, he has an evasion to one of these, or to
    /// one that escapes into these. A mate has no tag. Does nothing; whoever reads a note calls it
    /// to know this. Takes no memory.
    pub fn laws(&self)
        ensures valid { IsValid self.now }
        ensures true_note { IsTrueNote self.now }
    {
        note_laws();
        let _node = &self.node;
    }
}

/// A law: every valid note is true, also where contracts speak of notes that no call has at hand.
/// Does nothing. Takes no memory.
pub fn note_laws()
    ensures { NotesAreTrue }
{
    mate_def::rank_grows();
    mate_def::escapes_joined();
    mate_def::escape_grows();
    hand_dominance::dominance_laws();
    hand_dominance::listing_laws();
}
