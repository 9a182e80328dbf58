// What a stop hears of the input that is read ahead.
use crate::given::{Given, Set, time};
use reading_ahead::{HeardStop, read_ahead};
use search_gate::Stop;
use std::alloc::Global;
use std::sync::Wait;
use std::sync::atomic::Ordering;
use std::test::Fail;
use std::thread::Threads;
use tsume_io::Source;

// What a stop answers that is armed so when the clock shows 5,000, once so many reads were made of
// what is read ahead, at five times from then on: `y` where a search is to stop.
fn polls<R: Threads + Wait + AllocGlobal + Copy + Drop + Send + 'static>(
    rt: &R,
    text: Vec<u8>,
    armed: Option<u64>,
    reads: u32,
) -> Result<Vec<u8>, Fail> {
    let alloc: Global = rt.alloc();
    let now = time(alloc, 5_000)?;
    // The thread's clock shows half a second more wherever it is looked at again.
    let reader = Given::new(text, 100, false);
    let mut queue = read_ahead(*rt, alloc, reader, Set::new(&now, 500)?, 4_096)?;
    let mut stop = HeardStop::new(Set::new(&now, 0)?, queue.listener()?);
    let mut space = [0; 64];
    for _ in 0..reads {
        let _ = queue.read(&mut space);
    }
    now.store(5_000, Ordering::SeqCst);
    stop.arm(armed);
    let mut answers = Vec::new(alloc);
    for shown in [5_000u64, 5_999, 6_000, 6_999, 7_000] {
        now.store(shown, Ordering::SeqCst);
        answers.push(if stop.poll() { b'y' } else { b'n' })?;
    }
    Ok(answers)
}

#[test]
fn a_stop_hears_stop_quit_and_the_end(rt: HostRuntime) -> Result<(), Fail> {
    let alloc = rt.alloc();
    for (text, armed, reads, answers) in [
        // A line `stop` that waits, till it is handed on.
        ("go\nstop\nstop\r\nusi\n", Some(2_000), 1, "yyyyy"),
        ("go\nstop\nstop\r\nusi\n", Some(2_000), 2, "yyyyy"),
        ("go\nstop\nstop\r\nusi\n", Some(2_000), 3, "nnnny"),
        ("go\nstop", Some(2_000), 3, "nnnny"),
        // Other lines.
        (
            "go\nstopped\nstop x\n stop\nSTOP\nstop\r\r\nsto\n",
            Some(2_000),
            1,
            "nnnny",
        ),
        // A second behind `quit` or the end, where there is no limit.
        ("quit\nusi\n", None, 3, "nnyyy"),
        ("quit\r\n", None, 2, "nnyyy"),
        ("usi\n", None, 2, "nnyyy"),
        ("quit", None, 2, "nnyyy"),
        ("quit\n", Some(2_000), 2, "nnnny"),
    ] {
        let polled = polls(&rt, text.as_bytes().to_vec(alloc)?, armed, reads)?;
        assert_eq!(rt; polled.as_slice(), answers.as_bytes(), "{text:?} {reads}");
    }
    Ok(())
}
