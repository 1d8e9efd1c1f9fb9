// A page: bytes that are filled from the front. The program `levels` collects its output on a page and writes it once, so that one promise can
// cover all output. `put`, `put_text` and `put_number` put something after the first `at` bytes and answer how many bytes are then filled.
// A `Page` has 65,536 bytes and keeps this count itself. A promise sees a `Page` as the list of its filled bytes.
//
// This crate knows only bytes and numbers. What they mean is up to the caller.
#![tactic(auto)]

ghost use Rattle.std.specs.Prelude.{◌≡◌, min, [], ◌∷◌, length};
ghost use Rattle.io.specs.Counts.{IsPrefixLen};
ghost use Rattle.app_page.specs.Page.{Adds, decimal_of};

mod page_of_bytes;

pub use page_of_bytes::Page;

// These functions stay beside `Page`, because docs/PROMISES.md promises them for a page of any length.

// Puts one byte. A full page is unchanged.
pub fn put(page: &mut [u8], at: usize, b: u8) -> usize
    ensures { Adds page.old at (b ∷ []) page.new result }
{
    if at < page.len() {
        page[at] = b;
        return at + 1;
    }
    at
}

// Puts a text, as far as the page goes.
pub fn put_text(page: &mut [u8], mut at: usize, text: &[u8]) -> usize
    ensures { Adds page.old at text.now page.new result }
{
    for &b in text {
        at = put(page, at, b);
    }
    at
}

// Puts a number in decimal. A u64 has at most 20 digits.
pub fn put_number(page: &mut [u8], at: usize, n: u64) -> usize
    ensures { Adds page.old at (decimal_of n) page.new result }
{
    let mut text = [0u8; 20];
    let k = io::decimal(n, &mut text);
    put_text(page, at, &text[..k])
}

// Returns `at`, or the length of the page if that is smaller. So `&page[..r]` is in bounds for the result r.
pub fn filled(page: &[u8], at: usize) -> usize
    ensures prefix_len { IsPrefixLen result page.now }
    ensures value { result ≡ min at (length page.now) }
{
    at.min(page.len())
}
