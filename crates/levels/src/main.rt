// Reads one tree as parentheses from standard input and prints its outline nodes level by level.
// CI runs it on the example of SCOPE, The program `levels`.
#![tactic(auto)]

use std::io;

fn main(rt: HostRuntime) -> io::Result<()> {
    app_levels::run(&mut rt.reader(), &mut io::writer(&rt))
}
