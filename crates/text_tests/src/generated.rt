// Problems of the generator, as its statement gives them.
use crate::same::{same, shown};
use problem_gen::problem_of;
use sfen_text::write_sfen;
use std::test::Fail;

#[test]
fn each_number_has_its_problem(rt: HostRuntime) -> Result<(), Fail> {
    let alloc = rt.alloc();
    for (number, text) in [
        // A pawn of White's that would stand where the king stands is in its hand.
        (0, "4k4/9/4S4/5P3/9/9/9/9/9 b RGp"),
        (1, "k8/9/P1L6/9/9/9/9/9/9 b BNg"),
        // As many problems as the generator has first numbers; then the first comes again.
        (2_147_483_646, "4k4/9/4S4/5P3/9/9/9/9/9 b RGp"),
        (u64::MAX, "9/9/7kp/9/5S3/9/9/9/9 b BNP"),
    ] {
        let written = write_sfen(alloc, &problem_of(number).position)?;
        same(&rt, number, shown(&written), text);
    }
    Ok(())
}
