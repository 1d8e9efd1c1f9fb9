// Puts the printed lines on a page.
#![tactic(auto, using(app_page::proofs::Pages::added_then))]

ghost use Rattle.std.specs.Prelude.{◌≡◌, [], ◌∷◌, ◌++◌};
ghost use Rattle.row.specs.Answer.{number_of, paper_found};
ghost use Rattle.app_page.specs.Page.{added, decimal_of};
ghost use Rattle.app_levels.specs.Shown.{refused_text, refusal_line, answer_text, node_line};
ghost use Rattle.app_levels.specs.Levels.{level_lines, levels_lines, tree_lines};

use app_page::Page;
use row::{Found, Refusal};

// Puts a refusal without the end of its line, for example `refused 7`.
#[tactic(auto, using(app_page::proofs::Pages::added_then), unfolding(crate::specs::Shown::refused_text))]
fn put_refused(page: &mut Page, k: Refusal)
    ensures { page.new ≡ added page.old (refused_text (number_of k)) }
{
    page.put_text(b"refused ");
    page.put_number(k.number());
}

// Puts the line of a refusal.
pub fn put_refusal(page: &mut Page, k: Refusal)
    ensures { page.new ≡ added page.old (refusal_line (number_of k)) }
{
    put_refused(page, k);
    page.put(b'\n');
}

// Puts a number and the byte after it.
fn put_cell(page: &mut Page, n: u64, behind: u8)
    ensures { page.new ≡ added page.old (decimal_of n ++ (behind ∷ [])) }
{
    page.put_number(n);
    page.put(behind);
}

// Puts a position, `-` for nothing, or a refusal. Over nodes as built no call is refused; over foreign nodes the refusal is printed.
fn put_found(page: &mut Page, f: Found)
    ensures { page.new ≡ added page.old (answer_text (paper_found f)) }
{
    match f {
        Ok(Some(j)) => page.put_number(j as u64),
        Ok(None) => page.put(b'-'),
        Err(k) => put_refused(page, k),
    }
}

// Puts an answer and the byte after it.
fn put_end(page: &mut Page, f: Found, behind: u8)
    ensures { page.new ≡ added page.old (answer_text (paper_found f) ++ (behind ∷ [])) }
{
    put_found(page, f);
    page.put(behind);
}

// Puts the line of the outline node v: level, open position, close position, parent.
fn put_node(page: &mut Page, words: &[u64], n: usize, nodes: &[i64], level: u64, v: usize)
    ensures { page.new ≡ added page.old (node_line words.now n nodes.now level v) }
{
    put_cell(page, level, b' ');
    put_cell(page, v as u64, b' ');
    put_end(page, bp::close(words, n, nodes, 64, v), b' ');
    put_end(page, bp::parent(words, n, nodes, 64, v), b'\n');
}

// Puts the lines of a level, from its first outline node on. A level has at most n lines after its first one.
fn put_level(page: &mut Page, words: &[u64], n: usize, nodes: &[i64], level: u64, first: usize)
    ensures { page.new ≡ added page.old (level_lines words.now n nodes.now level first) }
{
    put_node(page, words, n, nodes, level, first);
    let mut v = first;
    for _step in 0..n {
        match bp::level_next(words, n, nodes, 64, v) {
            Ok(Some(w)) => {
                v = w;
                put_node(page, words, n, nodes, level, w);
            }
            Ok(None) => return,
            Err(k) => return put_refusal(page, k),
        }
    }
}

// Puts the levels one after another, from 0 on. A page has at most n levels.
fn put_levels(page: &mut Page, words: &[u64], n: usize, nodes: &[i64])
    ensures { page.new ≡ added page.old (levels_lines words.now n nodes.now 0 n) }
{
    for level in 0..n {
        match bp::level_leftmost(words, n, nodes, 64, level as u64) {
            Ok(Some(v)) => put_level(page, words, n, nodes, level as u64, v),
            Ok(None) => return,
            Err(k) => return put_refusal(page, k),
        }
    }
}

// Puts the first line, with the number of outline nodes and the number of bits, and then the levels.
pub fn put_tree(page: &mut Page, words: &[u64], n: usize, nodes: &[i64])
    ensures { page.new ≡ added page.old (tree_lines words.now n nodes.now) }
{
    put_cell(page, (n / 2) as u64, b' ');
    put_cell(page, n as u64, b'\n');
    put_levels(page, words, n, nodes);
}
