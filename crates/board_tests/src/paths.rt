// Tags and paths by examples.
use crate::same::same;
use board_core::Key;
use path_tags::{Path, Tag};
use std::alloc::{AllocError, Global};
use std::test::Fail;

// A key that is told from others by its first word in front of its last: keys come in the order of
// these numbers.
fn key(number: u64) -> Key {
    Key([number / 10, 7, 7, 7, 7, 7, 7, number % 10])
}

fn keys_of(alloc: Global, numbers: &[u64]) -> Result<Vec<Key>, AllocError> {
    let mut keys = Vec::new(alloc);
    for number in numbers {
        keys.push(key(*number))?;
    }
    Ok(keys)
}

fn tag_of(alloc: Global, numbers: &[u64]) -> Result<Tag, AllocError> {
    let mut tag = Tag::empty(alloc);
    for number in numbers {
        tag.add_without(alloc, &Tag::one(alloc, key(*number))?, &key(0))?;
    }
    Ok(tag)
}

fn path_of(alloc: Global, numbers: &[u64]) -> Result<Path, AllocError> {
    let mut path = Path::make(alloc);
    for number in numbers {
        path.push(key(*number))?;
    }
    Ok(path)
}

// A tag, another that is added to it, the key that is taken out, what is left, and a path on which
// all of it stands.
type Row<'a> = (&'a [u64], &'a [u64], u64, &'a [u64], &'a [u64]);

const ROWS: &[Row] = &[
    (&[], &[], 70, &[], &[]),
    (&[30, 12], &[21], 70, &[12, 21, 30], &[30, 21, 12]),
    (&[12, 21], &[30, 21], 30, &[12, 21], &[21, 90, 12, 90]),
    (&[12], &[12], 12, &[], &[12]),
    (&[30, 31], &[31, 30], 70, &[30, 31], &[30, 30, 31]),
    (&[], &[45, 4], 45, &[4], &[4]),
    (&[50, 5], &[], 50, &[5], &[5, 5]),
];

#[test]
fn a_tag_has_the_keys_of_both_but_for_one_and_lies_within_the_paths_that_have_them(
    rt: HostRuntime,
) -> Result<(), Fail> {
    for (row, (ours, theirs, out, left, way)) in ROWS.iter().enumerate() {
        let mut tag = tag_of(rt.alloc(), ours)?;
        tag.add_without(rt.alloc(), &tag_of(rt.alloc(), theirs)?, &key(*out))?;
        let wanted = keys_of(rt.alloc(), left)?;
        same(&rt, row, tag.keys(), wanted.as_slice());
        same(&rt, row, tag.copied(rt.alloc())?.keys(), wanted.as_slice());
        let counted = (tag.len(), tag.is_empty());
        same(&rt, row, counted, (left.len(), left.is_empty()));
        let mut path = path_of(rt.alloc(), way)?;
        let before = tag.within(&path);
        path.push(key(90))?;
        same(&rt, row, (before, tag.within(&path)), (true, true));
        // A tag with a key more, of a position that isn't on the path.
        tag.add_without(rt.alloc(), &Tag::one(rt.alloc(), key(8))?, &key(70))?;
        same(&rt, row, tag.within(&path), false);
    }
    Ok(())
}

#[test]
fn a_long_path_holds_a_key_until_it_was_popped_as_often_as_it_was_pushed(
    rt: HostRuntime,
) -> Result<(), Fail> {
    let mut path = Path::make(rt.alloc());
    for number in 0..5000 {
        path.push(key(number % 3000))?;
    }
    same(&rt, "full", (path.len(), path.is_empty()), (5000, false));
    // From the end, each key once more where it was pushed twice.
    for number in (0..2000).rev() {
        let last = key(number);
        let popped = path.pop();
        same(&rt, number, (popped, path.holds(&last)), (Some(last), true));
    }
    for number in (0..3000).rev() {
        let last = key(number);
        let held = path.holds(&last);
        let popped = path.pop();
        let found = (held, popped, path.holds(&last));
        same(&rt, number, found, (true, Some(last), false));
    }
    let found = (path.pop(), path.is_empty(), path.keys().is_empty());
    same(&rt, "empty", found, (None, true, true));
    Ok(())
}
