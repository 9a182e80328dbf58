// The words of a line.
use std::alloc::{AllocError, Global};

// What stands between its spaces; in a word `_` stands for a space.
pub(crate) fn words_of(alloc: Global, line: &str) -> Result<Vec<String>, AllocError> {
    let mut words = Vec::new(alloc);
    for word in line.split_whitespace() {
        words.push(word.replace(alloc, "_", " ")?)?;
    }
    Ok(words)
}
