// The words of the command line.
use std::{env, io};

/// What the words ask for.
#[derive(Drop)]
pub struct Asked {
    /// What is measured.
    pub what: String,
    /// How often its work is done.
    pub rounds: u64,
    /// Whether the time is printed too.
    pub is_timed: bool,
}

/// What the words behind the program's name ask for; none where they are none of `WHAT [ROUNDS]
/// [times]`.
pub fn asked_for(rt: &HostRuntime) -> io::Result<Option<Asked>> {
    let mut words = env::args(rt)?;
    let _name = words.next();
    let Some(what) = words.next() else {
        return Ok(None);
    };
    let mut asked = Asked {
        what,
        rounds: 1,
        is_timed: false,
    };
    for word in words {
        if word.as_str() == "times" {
            asked.is_timed = true;
        } else if let Ok(rounds) = word.as_str().parse::<u64>() {
            asked.rounds = rounds;
        } else {
            return Ok(None);
        }
    }
    Ok(Some(asked))
}
