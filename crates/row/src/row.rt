// A row whose words have n bits.
ghost use Rattle.std.specs.Prelude.{◌≤◌, ◌*◌, length};

#[derive(Clone, Copy)]
pub struct Row<'a> {
    pub words: &'a [u64],
    pub n: usize,
    ghost fits: { n ≤ 64 * length words.now },
}
