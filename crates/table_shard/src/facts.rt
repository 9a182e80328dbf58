// The notes of an entry.
ghost use Rattle.std.specs.Prelude.{◌≡◌, ◌∷◌, ◌-◌, ◌++◌, ◌↔◌, List, [], Option, Some, IfSome, IfNone, IsTrue, false, drop, length, if◌then◌else◌};
ghost use Rattle.std.specs.Option.{option_copied};
ghost use Rattle.notes.specs.Derivation.{Derivation, tag_of};
ghost use Rattle.table_shard.specs.Entry.{IsTagged, IsFirstWithin, has_closed};

use notes::Note;
use path_tags::Path;

// What is known of a position: nothing; one note that holds on every path; or up to four others, in
// order of coming.
#[derive(Drop)]
pub(crate) enum Facts {
    Unknown,
    Closed(Note),
    One(Note),
    Two(Note, Note),
    Three(Note, Note, Note),
    Four(Note, Note, Note, Note),
}

impl Facts {
    ghost use Rattle.table_shard.specs.Facts.{notes_of, AreFacts};

    // Whether a note is kept that holds on every path.
    pub(crate) fn is_closed(&self) -> bool
        requires { AreFacts self.now }
        ensures { result ≡ has_closed (notes_of self.now) }
    {
        matches!(self, Facts::Closed(_))
    }

    // The note that is kept alone, and holds on every path.
    pub(crate) fn closed(&self) -> Option<&Note>
        requires { AreFacts self.now }
        ensures some { IfSome result (λ note. notes_of self.now ≡ note.now ∷ []) }
        ensures none { IfNone result (has_closed (notes_of self.now) ≡ false) }
    {
        match self {
            Facts::Closed(note) => Some(note),
            _ => None,
        }
    }

    // The facts with another note, which depends on 1 to 32 positions, where none is kept that
    // holds on every path.
    pub(crate) fn with(self, note: Note) -> Facts
        requires facts { AreFacts self }
        requires tagged { IsTagged note }
        ensures facts { AreFacts result }
        ensures notes { notes_of result
            ≡ (if has_closed (notes_of self) then notes_of self else drop
            (length (notes_of self) - 3) (notes_of self) ++ note ∷ []) }
    {
        match self {
            Facts::Unknown => Facts::One(note),
            Facts::Closed(closed) => Facts::Closed(closed),
            Facts::One(a) => Facts::Two(a, note),
            Facts::Two(a, b) => Facts::Three(a, b, note),
            Facts::Three(a, b, c) => Facts::Four(a, b, c, note),
            Facts::Four(_, b, c, d) => Facts::Four(b, c, d, note),
        }
    }

    // The first note that holds on the path.
    pub(crate) fn first_within(&self, path: &Path) -> Option<&Note>
        requires { AreFacts self.now }
        ensures { IsFirstWithin path.now (notes_of self.now) (option_copied result) }
    {
        match self {
            Facts::Unknown => None,
            Facts::Closed(note) => Some(note),
            Facts::One(a) => first(path, a, None),
            Facts::Two(a, b) => first(path, a, first(path, b, None)),
            Facts::Three(a, b, c) => first(path, a, first(path, b, first(path, c, None))),
            Facts::Four(a, b, c, d) => first(
                path,
                a,
                first(path, b, first(path, c, first(path, d, None))),
            ),
        }
    }
}

// The note where it holds on the path, else the one that is found behind it.
fn first<'a>(path: &Path, note: &'a Note, behind: Option<&'a Note>) -> Option<&'a Note>
    ensures { (notes : List Derivation)
        → IsFirstWithin path.now notes (option_copied behind.entry)
        → IsFirstWithin path.now (note.now ∷ notes) (option_copied result) }
{
    if note.tag().within(path) {
        return Some(note);
    }
    behind
}
