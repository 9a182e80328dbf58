// Two rising lists, gone through as one.
ghost use Rattle.std.specs.Prelude.{◌≡◌, ◌+◌, ◌<◌, [], ◌∷◌, length, IfSome, IfNone};
ghost use Rattle.path_tags.specs.Tag.{IsRising, joined};

use board_core::Key;
use std::cmp::Ordering::{Equal, Greater, Less};

/// The first key of two rising lists, and what is left of each behind it.
#[derive(Clone, Copy, Debug)]
pub(crate) struct First<'a> {
    pub(crate) key: Key,
    pub(crate) ours: &'a [Key],
    pub(crate) theirs: &'a [Key],
}

/// The first key of two rising lists, where they have one. A key that both have is taken from both.
pub(crate) fn first_of<'a>(ours: &'a [Key], theirs: &'a [Key]) -> Option<First<'a>>
    requires ours { IsRising ours.now }
    requires theirs { IsRising theirs.now }
    ensures first { IfSome result (λ first. joined ours.now theirs.now
        ≡ first.key ∷ joined first.ours.now first.theirs.now) }
    ensures ours_rise { IfSome result (λ first. IsRising first.ours.now) }
    ensures theirs_rise { IfSome result (λ first. IsRising first.theirs.now) }
    ensures shorter { IfSome result
        (λ first. length first.ours.now + length first.theirs.now < length ours.now + length
        theirs.now) }
    ensures none { IfNone result (joined ours.now theirs.now ≡ []) }
{
    let Some((&our, our_rest)) = ours.split_first() else {
        let (&their, their_rest) = theirs.split_first()?;
        return Some(First {
            key: their,
            ours,
            theirs: their_rest,
        });
    };
    let Some((&their, their_rest)) = theirs.split_first() else {
        return Some(First {
            key: our,
            ours: our_rest,
            theirs,
        });
    };
    match our.cmp(&their) {
        Less => Some(First {
            key: our,
            ours: our_rest,
            theirs,
        }),
        Greater => Some(First {
            key: their,
            ours,
            theirs: their_rest,
        }),
        Equal => Some(First {
            key: our,
            ours: our_rest,
            theirs: their_rest,
        }),
    }
}
