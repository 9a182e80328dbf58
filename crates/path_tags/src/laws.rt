// What is true of all tags and paths: each law is the clause of a call that does nothing.
ghost use Rattle.path_tags.specs.Laws.{TagsApart, JoinedRise, JoinedHold, EmptyIsWithin, OneIsWithin, WithinMore, JoinedWithin};

/// Laws about tags: tags with the same keys are one tag; what two tags are joined to without a key
/// is a tag, which has the keys of both but for that key. Does nothing; whoever joins or compares
/// tags calls it to know this. Takes no memory.
pub fn tag_laws()
    ensures apart { TagsApart }
    ensures joined_rise { JoinedRise }
    ensures joined_hold { JoinedHold }
{}

/// Laws about tags on paths: the empty tag lies within each path, and the tag of one key within
/// those on which the key stands; a tag within a path stays within it after a push; and two tags
/// lie within a path with a key pushed exactly where they lie, joined without that key, within the
/// path before. Does nothing; whoever asks whether a tag lies within a path calls it to know this.
/// Takes no memory.
pub fn path_laws()
    ensures empty { EmptyIsWithin }
    ensures one { OneIsWithin }
    ensures more { WithinMore }
    ensures joined { JoinedWithin }
{}
