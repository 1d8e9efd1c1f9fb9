// Puts all output of the program on a page, from the bytes that were read.
ghost use Rattle.std.specs.Prelude.{◌≡◌};
ghost use Rattle.app_page.specs.Page.{added};
ghost use Rattle.app_levels.specs.Printed.{printed, ShortTree};
ghost use Rattle.app_levels.specs.Outline.{defined_lines};

use crate::print::{put_refusal, put_tree};
use app_page::Page;

// Builds the nodes of a tree and puts its lines. Blocks of 64 give at most 64 block leaves and 63 inner nodes: 3 * 127 = 381 entries.
fn put_built(page: &mut Page, words: &[u64; 64], n: usize)
    requires { ShortTree words.now n }
    ensures { page.new ≡ added page.old (defined_lines words.now n) }
{
    let mut nodes = [0i64; 381];
    match mmt_build::build(words, n, &mut nodes, 64) {
        Ok(()) => put_tree(page, words, n, &nodes),
        Err(k) => put_refusal(page, k),
    }
}

// Empties the page. Then puts the lines of the tree that the bytes encode, or the line of a refusal. A page of 65,536 bytes has room for all
// output: the first line and at most 2,048 lines of outline nodes, of at most 20 bytes each.
pub fn put_answer(page: &mut Page, bytes: &[u8])
    ensures { page.new ≡ printed bytes.now }
{
    *page = Page::new();
    let mut words = [0u64; 64];
    match app_line::read_tree(bytes, &mut words) {
        Ok(n) => put_built(page, &words, n),
        Err(refusal) => put_refusal(page, refusal),
    }
}
