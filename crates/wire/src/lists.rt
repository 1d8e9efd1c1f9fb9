// Lists of words and of signed numbers in a byte slice, from its first byte on.
ghost use Rattle.std.specs.Prelude.{◌≡◌, ◌*◌, ◌≤◌, length, take};
ghost use Rattle.row.specs.Writes.{Writes};
ghost use Rattle.wire.specs.Limit.{fit};
ghost use Rattle.wire.specs.Bytes.{values_in, values_over};

use crate::bytes::EightBytes;
use crate::limit::fitting;

// Decodes one value from `bytes` into each entry of `out`.
fn read<T: EightBytes>(bytes: &[u8], out: &mut [T])
    requires { 8 * length out.old ≤ length bytes.now }
    ensures { out.new ≡ values_in T.value_at bytes.now (length out.old) }
{
    let chunks = bytes.as_chunks::<8>().0;
    for (i, x) in out.iter_mut().enumerate() {
        *x = T::from_bytes(chunks[i]);
    }
}

// Decodes the values of `bytes` into `out`, as many as `out` has room for. Returns how many.
pub fn take<T: EightBytes>(bytes: &[u8], out: &mut [T]) -> usize
    ensures { Writes result (fit (length bytes.now) (length out.old))
        (take result out.new) (values_in T.value_at bytes.now result) }
{
    let c = fitting(bytes.len(), out.len());
    read(bytes, &mut out[..c]);
    c
}

// Writes the values to `bytes`, from the first byte on. The bytes after them are unchanged.
pub fn write<T: EightBytes>(values: &[T], bytes: &mut [u8])
    requires { 8 * length values.now ≤ length bytes.old }
    ensures { bytes.new ≡ values_over T.bytes values.now bytes.old }
{
    for (i, x) in values.iter().enumerate() {
        bytes[8 * i..8 * i + 8].copy_from_slice(&x.to_bytes());
    }
}
