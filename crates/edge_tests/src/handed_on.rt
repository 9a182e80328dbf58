// What is handed on: a line a call at most, all of it, in order.
ghost use Rattle.std.specs.Prelude.{◌≤◌};

use crate::given::{Given, Set, time};
use reading_ahead::{Queue, read_ahead};
use std::sync::Wait;
use std::test::Fail;
use std::thread::Threads;
use tsume_io::{Source, read_all};

// A queue over what this reader gives.
fn queue_of<R: Threads + Wait + AllocGlobal + Copy + Send + 'static>(
    rt: &R,
    reader: Given,
    most: usize,
) -> Result<Queue<R>, Fail>
    requires { 2 ≤ most }
{
    let clock = Set::new(&time(rt.alloc(), 0)?, 0)?;
    Ok(read_ahead(*rt, rt.alloc(), reader, clock, most)?)
}

// What each of seven reads hands on, where there is place for so many bytes: a bar behind each, a
// mark of exclamation for one that failed.
fn reads<R: Threads + Wait + AllocGlobal + Copy + Drop + Send + 'static>(
    rt: &R,
    reader: Given,
    place: usize,
) -> Result<Vec<u8>, Fail> {
    let mut queue = queue_of(rt, reader, 4_096)?;
    let mut space = vec![in rt.alloc(); 0; place]?;
    let mut all = Vec::new(rt.alloc());
    for _ in 0..7u32 {
        match queue.read(&mut space) {
            Ok(count) => all.extend_from_slice(space.get(..count).unwrap_or(&[]))?,
            Err(_) => all.push(b'!')?,
        }
        all.push(b'|')?;
    }
    Ok(all)
}

#[test]
fn a_read_hands_on_a_line_or_a_part_of_one(rt: HostRuntime) -> Result<(), Fail> {
    let alloc = rt.alloc();
    for (text, place, fails, handed_on) in [
        (
            "usi\n\nisready\r\nquit",
            64,
            false,
            "usi\n|\n|isready\r\n|quit||||",
        ),
        ("a long line\nusi\n", 5, false, "a lon|g lin|e\n|usi\n||||"),
        ("usi\nisr", 64, true, "usi\n|isr|!|!|!|!|!|"),
    ] {
        let reader = Given::new(text.as_bytes().to_vec(alloc)?, 100, fails);
        let read = reads(&rt, reader, place)?;
        assert_eq!(rt; read.as_slice(), handed_on.as_bytes());
    }
    Ok(())
}

#[test]
fn all_comes_in_order_through_a_tiny_queue(rt: HostRuntime) -> Result<(), Fail> {
    let alloc = rt.alloc();
    let text: Vec<u8> = (0..250u8).collect(alloc)?;
    for (piece, most) in [(1, 2), (7, 3), (1_000, 5), (1_000, 64)] {
        let reader = Given::new(text.as_slice().to_vec(alloc)?, piece, false);
        let all = read_all(alloc, &mut queue_of(&rt, reader, most)?, 250)?;
        assert_eq!(rt; all.as_slice(), text.as_slice());
    }
    Ok(())
}
