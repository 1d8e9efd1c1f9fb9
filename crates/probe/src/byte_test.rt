// The two tests and the text reader over byte slices, for rows of up to 4,096 bits.
//
// Each test makes one request. Its promise is that of the test, over the words and node numbers that the bytes encode.
ghost use Rattle.std.specs.Prelude.{◌≡◌};
ghost use Rattle.row.specs.Writes.{Writes};
ghost use Rattle.one_tree.specs.OneTree.{one_tree_answer};
ghost use Rattle.mmt_build.specs.Check.{as_built_answer};
ghost use Rattle.wire.specs.Answer.{wire_of};
ghost use Rattle.wire.specs.Limit.{wire_bits};
ghost use Rattle.wire.specs.Decoded.{row_words, node_numbers};
ghost use Rattle.c_dispatch.specs.Reader.{read_wire, read_bytes};

use c_dispatch::Request;

// Tests whether the row is one tree: 1 or 0.
#[unsafe(no_mangle)]
pub extern "C" fn bp_one_tree(row: &[u8], bits: u64) -> i64
    ensures { result ≡ wire_of (one_tree_answer (row_words row.now) (wire_bits bits)) }
{
    c_dispatch::over_row(row, bits, Request::OneTree)
}

// Tests whether the node buffer is as built: 1 or 0.
#[unsafe(no_mangle)]
pub extern "C" fn bp_as_built(row: &[u8], bits: u64, nodes: &[u8], block: u64) -> i64
    ensures { result ≡ wire_of (as_built_answer (row_words row.now) (wire_bits bits) (node_numbers nodes.now) block) }
{
    c_dispatch::over_bytes(row, bits, nodes, block, Request::AsBuilt)
}

// Reads a text of at most 4,096 bytes into `row` and returns the bit count. Bytes after the needed words are unchanged; a refusal leaves all
// bytes unchanged.
#[unsafe(no_mangle)]
pub extern "C" fn bp_read_text(text: &[u8], row: &mut [u8]) -> i64
    ensures { Writes result (read_wire text.now row.old)
        row.new (read_bytes text.now row.old) }
{
    c_dispatch::read_text(text, row)
}
