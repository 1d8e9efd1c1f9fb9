// The program `levels` without its `main`: reads one tree as parentheses and prints its outline nodes level by level, each from the left.
// `app_line` reads the line, and `app_page` has the page that collects the output. This crate defines the printed lines.
//
// One call reads the input, until it ends or until 4,097 bytes are read. The text is everything before the first newline.
// A refusal prints one line: 2 for more than 4,096 parentheses, 6 for a byte that is no parenthesis, 7 for a row that is not one tree.
//
// The line, the row, the nodes and the page are arrays of fixed size, so no step of the program can run out of memory.
#![tactic(auto)]

ghost use Rattle.std.specs.Prelude.{IfSome, OnOk};
ghost use Rattle.std.specs.Io.KnownBytes.{Appends};
ghost use Rattle.app_levels.specs.Printed.{printed};

mod print;
mod whole;

use app_page::Page;
use std::io::{Read, Result, Write};

fn answer<W: Write>(bytes: &[u8], output: &mut W) -> Result<()>
    ensures { OnOk result (Appends (W.contents output.old) (W.contents output.new) (printed bytes.now)) }
{
    let mut page = Page::new();
    whole::put_answer(&mut page, bytes);
    output.write_all(page.text())
}

// Reads from `input` and prints to `output`. `levels` passes standard input and output; `test_inputs` passes files in place of standard input.
// If the bytes that the input has left and those that the output holds are known, all output for these bytes is added.
pub fn run<R: Read, W: Write>(input: &mut R, output: &mut W) -> Result<()>
    ensures { OnOk result (IfSome (R.remaining input.old)
        (λ xs. Appends (W.contents output.old) (W.contents output.new) (printed xs))) }
{
    let mut bytes = [0; 4097];
    let count = app_line::read_full(input, &mut bytes)?;
    answer(&bytes[..count], output)
}
