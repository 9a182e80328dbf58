//! The program `tsume`: the library's `start` over the standard input, output and error output.
#![tactic(auto)]

use tsume_app::{Exit, start};

fn main(rt: HostRuntime) -> Exit {
    start(&rt, rt.stderr())
}
