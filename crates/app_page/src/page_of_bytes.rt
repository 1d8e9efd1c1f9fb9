// The page that the program fills: 65,536 bytes, and how many of them are filled.
#![tactic(auto, using(crate::proofs::Pages::added_is))]

ghost use Rattle.std.specs.Prelude.{◌≡◌, [], ◌∷◌};
ghost use Rattle.app_page.specs.Page.{added, decimal_of};

use crate::{filled, put, put_number, put_text};
use std::marker::Model;

// The size of a page in bytes.
const SIZE: usize = 65536;

// A page of 65,536 bytes. At most all of them are filled, and the filled ones are its text. The bytes are an array and no `Vec`, so that no
// step of the program can run out of memory.
#[derive(Drop)]
pub struct Page {
    bytes: [u8; SIZE],
    filled: usize,
}

impl Model for Page {
    ghost use Rattle.std.specs.Prelude.{List, ℕ, ◌≤◌, take};
    ghost use Rattle.app_page.specs.Page.{page_bytes};

    ghost Value = { List ℕ };

    ghost view = { λ p. take p.filled p.bytes };

    ghost invariant = { λ p. p.filled ≤ page_bytes };
}

impl Page {
    // Returns an empty page.
    pub fn new() -> Self
        ensures { result ≡ [] }
    {
        Page {
            bytes: [0; SIZE],
            filled: 0,
        }
    }

    // Puts one byte. A full page is unchanged.
    pub fn put(&mut self, b: u8)
        ensures { self.new ≡ added self.old (b ∷ []) }
    {
        self.filled = put(&mut self.bytes, self.filled, b);
    }

    // Puts a text, as far as the page goes.
    pub fn put_text(&mut self, text: &[u8])
        ensures { self.new ≡ added self.old text.now }
    {
        self.filled = put_text(&mut self.bytes, self.filled, text);
    }

    // Puts a number in decimal. A u64 has at most 20 digits.
    pub fn put_number(&mut self, n: u64)
        ensures { self.new ≡ added self.old (decimal_of n) }
    {
        self.filled = put_number(&mut self.bytes, self.filled, n);
    }

    // Returns the filled bytes.
    pub fn text(&self) -> &[u8]
        ensures { result.now ≡ self.now }
    {
        &self.bytes[..filled(&self.bytes, self.filled)]
    }
}
