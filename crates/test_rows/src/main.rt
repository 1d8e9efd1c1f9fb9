// Runs the byte lookup, the text reader, the one-tree test, the build and the as-built test on small inputs. CI compares the output with the
// file stdout.
#![tactic(auto)]

mod nodes;
mod rows;

use std::io;

fn main(rt: HostRuntime) -> io::Result<()> {
    rows::run(&rt)?;
    nodes::run(&rt)
}
