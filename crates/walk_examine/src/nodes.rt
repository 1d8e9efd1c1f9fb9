// The nodes of a min-max tree.
ghost use Rattle.std.specs.Prelude.{◌*◌, ◌≤◌, length};
ghost use Rattle.mmt_layout.specs.Layout.{width};

// A node buffer and the number of its nodes. The buffer has room for all of them.
#[derive(Clone, Copy)]
pub struct Nodes<'a> {
    pub buffer: &'a [i64],
    pub all: usize,
    ghost room: { width * all ≤ length buffer.now },
}
