// A line that says what to run.
use std::alloc::{AllocError, Global};

// What to run: what is arranged (`read`, `write`, `poll`, `blanks`, or nothing) with its number,
// the words, and the input as it is spelled.
#[derive(Clone, Copy)]
pub struct Line<'a> {
    arranged: &'a str,
    number: u64,
    words: &'a str,
    input: &'a str,
}

// What stands in brackets in front, its number, and what comes behind.
fn arranged_in(line: &str) -> Option<(&str, u64, &str)> {
    let (inside, behind) = line.strip_prefix("[")?.split_once("] ")?;
    let (name, number) = inside.split_once(" ")?;
    Some((name, number.parse::<u64>().ok()?, behind))
}

// What is spelled behind `\x{`: a byte by its two digits, a brace, and more of the input.
fn append_spelled(bytes: &mut Vec<u8>, part: &str) -> Result<(), AllocError> {
    let Some((digits, behind)) = part.split_once("}") else {
        return Ok(());
    };
    if let Ok(byte) = u8::from_str_radix(digits, 16) {
        bytes.push(byte)?;
    }
    bytes.extend_from_slice(behind.as_bytes())
}

impl<'a> Line<'a> {
    pub fn read(line: &'a str) -> Line<'a> {
        let (arranged, number, behind) = arranged_in(line).unwrap_or(("", 0, line));
        let (words, input) = behind.split_once(" < ").unwrap_or((behind, ""));
        Line {
            arranged,
            number,
            words,
            input,
        }
    }

    // The number of what is arranged, where it has this name, else 0.
    pub fn number_of(&self, name: &str) -> u64 {
        if self.arranged == name {
            self.number
        } else {
            0
        }
    }

    pub fn words(&self, alloc: Global) -> Result<Vec<String>, AllocError> {
        let mut words = Vec::new(alloc);
        for word in self.words.split(' ').filter(|word| !word.is_empty()) {
            words.push(word.replace(alloc, "_", " ")?)?;
        }
        Ok(words)
    }

    pub fn input(&self, alloc: Global) -> Result<Vec<u8>, AllocError> {
        let text = self.input.replace(alloc, "\\n", "\n")?;
        let text = text.as_str().replace(alloc, "\\r", "\r")?;
        let text = text.as_str().replace(alloc, "\\t", "\t")?;
        let mut bytes = Vec::new(alloc);
        for _ in 0..self.number_of("blanks") {
            bytes.push(b' ')?;
        }
        let mut parts = text.as_str().split("\\x{");
        if let Some(first) = parts.next() {
            bytes.extend_from_slice(first.as_bytes())?;
        }
        for part in parts {
            append_spelled(&mut bytes, part)?;
        }
        Ok(bytes)
    }
}
