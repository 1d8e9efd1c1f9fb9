// The two tests and the text reader over words and numbers, for rows of up to 2^32 bits, without a copy.
//
// Each function makes one call and has the promise of that call.
ghost use Rattle.std.specs.Prelude.{◌≡◌, length};
ghost use Rattle.row.specs.Writes.{Writes};
ghost use Rattle.row.specs.Answer.{at};
ghost use Rattle.row.specs.Gates.{through};
ghost use Rattle.text.specs.Text.{text_gate, text_words};
ghost use Rattle.one_tree.specs.OneTree.{one_tree_answer};
ghost use Rattle.mmt_build.specs.Check.{as_built_answer};
ghost use Rattle.wire.specs.Answer.{wire_of};

// Tests whether the row is one tree: 1 or 0.
#[unsafe(no_mangle)]
pub extern "C" fn bpw_one_tree(words: &[u64], bits: u64) -> i64
    ensures { result ≡ wire_of (one_tree_answer words.now bits) }
{
    wire::told(one_tree::one_tree(words, bits as usize))
}

// Tests whether the node buffer is as built: 1 or 0.
#[unsafe(no_mangle)]
pub extern "C" fn bpw_as_built(words: &[u64], bits: u64, nodes: &[i64], block: u64) -> i64
    ensures { result ≡ wire_of (as_built_answer words.now bits nodes.now block) }
{
    wire::told(mmt_build::as_built(words, bits as usize, nodes, block as usize))
}

// Reads a text into `words` and returns the bit count. Words after the needed ones are unchanged; a refusal leaves all words unchanged.
#[unsafe(no_mangle)]
pub extern "C" fn bpw_read_text(text: &[u8], words: &mut [u64]) -> i64
    ensures { Writes result (wire_of (through (text_gate text.now (length words.old)) (at (length text.now))))
        words.new (text_words text.now words.old) }
{
    wire::read(text::read_text(text, words))
}
