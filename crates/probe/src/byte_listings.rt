// The listings over byte slices, for rows of up to 4,096 bits.
//
// Each answer is written as eight bytes, up to and with the first `nothing`, or until fewer than eight bytes of `out` are left. Bytes after
// the answers are unchanged. A refused constructor leaves all bytes unchanged.
ghost use Rattle.std.specs.Prelude.{◌≡◌, true, false};
ghost use Rattle.row.specs.Writes.{Writes};
ghost use Rattle.c_listings.specs.Listings.{list_wire, list_left};

// Writes the children of `node` from the first to the last. Returns the number of answers written, or the refusal.
#[unsafe(no_mangle)]
pub extern "C" fn bp_children(
    row: &[u8],
    bits: u64,
    nodes: &[u8],
    block: u64,
    node: u64,
    out: &mut [u8],
) -> i64
    ensures { Writes result (list_wire true row.now bits nodes.now block node out.old)
        out.new (list_left true row.now bits nodes.now block node out.old) }
{
    c_listings::to_bytes(row, bits, nodes, block, true, node, out)
}

// Writes the children of `node` from the last to the first. Returns the number of answers written, or the refusal.
#[unsafe(no_mangle)]
pub extern "C" fn bp_rev_children(
    row: &[u8],
    bits: u64,
    nodes: &[u8],
    block: u64,
    node: u64,
    out: &mut [u8],
) -> i64
    ensures { Writes result (list_wire false row.now bits nodes.now block node out.old)
        out.new (list_left false row.now bits nodes.now block node out.old) }
{
    c_listings::to_bytes(row, bits, nodes, block, false, node, out)
}
