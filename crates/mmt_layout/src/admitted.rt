// A row and its node buffer that have passed tests 1 to 4.
ghost use Rattle.std.specs.Prelude.{length};
ghost use Rattle.mmt_layout.specs.Layout.{Fine};

// The words and the node buffer are long enough for n bits in blocks of `block` bits.
#[derive(Clone, Copy)]
pub struct Admitted<'a> {
    pub words: &'a [u64],
    pub n: usize,
    pub nodes: &'a [i64],
    pub block: usize,
    ghost fine: { Fine (length words.now) n (length nodes.now) block },
}
