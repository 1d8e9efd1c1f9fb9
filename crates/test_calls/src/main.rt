// Runs the searches, the level calls and the child listings on small rows. CI compares the output with the file stdout.
#![tactic(auto)]

mod outlines;
mod searches;

use std::io;

fn main(rt: HostRuntime) -> io::Result<()> {
    searches::run(&rt)?;
    outlines::run(&rt)
}
