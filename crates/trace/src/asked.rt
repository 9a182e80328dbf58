// What the standard input asks for: a problem, the settings of its search, and what happens in the
// world of its workers.
use lone_port::Event;
use search_limits::Settings;
use sfen_text::read_sfen;
use shogi_rules::{Problem, accept_problem};
use std::alloc::{AllocError, Global};

/// A problem, and how it is searched.
#[derive(Drop)]
pub struct Asked {
    /// The problem.
    pub problem: Problem,
    /// The settings.
    pub settings: Settings,
    /// Whether several workers search, and a schedule says what happens; else one searches alone.
    pub is_world: bool,
    /// Whether each of several workers has a port of its own of one shared table, whose rows go
    /// from one to the next.
    pub is_by_ports: bool,
    /// The schedule.
    pub events: Vec<Event>,
}

// What stands before a byte, and behind it; nothing behind it where there is none.
fn split_at_first(text: &str, wanted: char) -> (&str, &str) {
    text.split_once(wanted).unwrap_or((text, ""))
}

// The number behind a name and a space, and what is behind that and a space.
fn named<'a>(text: &'a str, name: &str) -> Option<(u64, &'a str)> {
    let (word, rest) = split_at_first(text, ' ');
    if word != name {
        return None;
    }
    let (digits, rest) = split_at_first(rest, ' ');
    Some((digits.parse::<u64>().ok()?, rest))
}

fn settings(line: &str) -> Option<Settings> {
    let crew = named(line, "workers").or(named(line, "ports"));
    let (workers, rest) = crew.unwrap_or((1, line));
    let (expansions, rest) = named(rest, "expansions")?;
    let (room, rest) = named(rest, "room")?;
    let (rows, rest) = named(rest, "rows")?;
    let (shards, rest) = named(rest, "shards")?;
    if !rest.is_empty() {
        return None;
    }
    let workers = u32::try_from(workers).ok()?;
    let room = u32::try_from(room).ok()?;
    Settings::new(workers, expansions, room, rows, shards).ok()
}

fn problem(line: &str) -> Option<Problem> {
    let position = read_sfen(line.as_bytes()).ok()?;
    accept_problem(position).ok()
}

fn event(line: &str) -> Option<Event> {
    let (word, digits) = split_at_first(line, ' ');
    let worker = digits.parse::<u32>().ok()?;
    match word {
        "step" => Some(Event::Step(worker)),
        "raise" => Some(Event::Raise(worker)),
        "starve" => Some(Event::Starve(worker)),
        _ => None,
    }
}

// The events of these lines; none where one of them is no event.
fn schedule(alloc: Global, lines: &str) -> Result<Option<Vec<Event>>, AllocError> {
    let mut events = Vec::new(alloc);
    for line in lines.split('\n') {
        if line.is_empty() {
            continue;
        }
        let Some(event) = event(line) else {
            return Ok(None);
        };
        events.push(event)?;
    }
    Ok(Some(events))
}

/// What the input asks for; none where it has another form. Errors: want of memory alone.
pub fn read_asked(alloc: Global, input: &str) -> Result<Option<Asked>, AllocError> {
    let (first, rest) = split_at_first(input, '\n');
    let (second, rest) = split_at_first(rest, '\n');
    let (Some(problem), Some(settings)) = (problem(first), settings(second)) else {
        return Ok(None);
    };
    let is_by_ports = second.starts_with("ports ");
    let is_world = is_by_ports || second.starts_with("workers ");
    let Some(events) = schedule(alloc, rest)? else {
        return Ok(None);
    };
    if !is_world && !events.is_empty() {
        return Ok(None);
    }
    Ok(Some(Asked {
        problem,
        settings,
        is_world,
        is_by_ports,
        events,
    }))
}
