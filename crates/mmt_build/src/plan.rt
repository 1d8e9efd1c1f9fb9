// A row with its blocks and the layout of their nodes. A build and a test of all nodes read it.
ghost use Rattle.std.specs.Prelude.{length};
ghost use Rattle.mmt_build.specs.Requirements.{Laid};

use mmt_layout::Layout;

// The row and the block size have passed tests 1 to 3.
#[derive(Clone, Copy)]
pub struct Plan<'a> {
    pub words: &'a [u64],
    pub n: usize,
    pub block: usize,
    pub layout: Layout,
    ghost laid: { Laid (length words.now) n block layout },
}
