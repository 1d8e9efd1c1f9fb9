// Runs the program `levels` on each file of data/ in place of standard input. CI compares the output with the file stdout.
//
// deep and wide have 4,096 parentheses; in wide, byte 4,097 is the newline. The three files after them have no newline in their first 4,097
// bytes.
#![tactic(auto)]

use std::io;
use std::rt::Files;

fn case<R: Files + Print>(rt: &R, path: &str) -> io::Result<()> {
    rt.println(path)?;
    let mut file = std::fs::open(rt, path)?;
    app_levels::run(&mut file, &mut io::writer(rt))
}

fn main(rt: HostRuntime) -> io::Result<()> {
    case(&rt, "empty")?;
    case(&rt, "newline_first")?;
    case(&rt, "one_node")?;
    case(&rt, "more_lines")?;
    case(&rt, "mixed")?;
    case(&rt, "deep")?;
    case(&rt, "wide")?;
    case(&rt, "too_long")?;
    case(&rt, "too_long_other_bytes")?;
    case(&rt, "line_too_late")?;
    case(&rt, "bad_byte")?;
    case(&rt, "carriage_return")?;
    case(&rt, "nul")?;
    case(&rt, "blank")?;
    case(&rt, "bad_byte_unbalanced")?;
    case(&rt, "unclosed")?;
    case(&rt, "closes_first")?;
    case(&rt, "two_trees")?;
    case(&rt, "long_unbalanced")
}
