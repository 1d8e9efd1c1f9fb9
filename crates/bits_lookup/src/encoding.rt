// The table of the byte lookup. The entry of a byte is (least + 8) * 32 + (greatest + 8), with least and greatest of its summary.
// Neither value is below -8, so no entry is negative.
ghost use Rattle.std.specs.Prelude.{◌≡◌};
ghost use Rattle.row.specs.Bits.{digit};
ghost use Rattle.bits_stretch.specs.Summary.{summary_of};
ghost use Rattle.bits_lookup.specs.Table.{encoded, IsTable};

// It is a `static` and no `const`, because a `const` array is copied into the frame of each function that reads it.
static TABLE: [u16; 256] = [
    7, 73, 72, 138, 71, 137, 137, 203, 71, 137, 136, 202, 136, 202, 202, 268, 71, 137, 136, 202,
    135, 201, 201, 267, 135, 201, 201, 267, 201, 267, 235, 301, 71, 137, 136, 202, 135, 201, 201,
    267, 135, 201, 200, 266, 200, 266, 234, 300, 135, 201, 200, 266, 200, 266, 234, 300, 168, 234,
    234, 300, 202, 268, 236, 302, 71, 137, 136, 202, 135, 201, 201, 267, 135, 201, 200, 266, 200,
    266, 234, 300, 135, 201, 200, 266, 199, 265, 233, 299, 167, 233, 233, 299, 201, 267, 235, 301,
    103, 169, 168, 234, 167, 233, 233, 299, 167, 233, 233, 299, 201, 267, 235, 301, 135, 201, 201,
    267, 201, 267, 235, 301, 169, 235, 235, 301, 203, 269, 237, 303, 39, 105, 104, 170, 103, 169,
    169, 235, 103, 169, 168, 234, 168, 234, 234, 300, 103, 169, 168, 234, 167, 233, 233, 299, 167,
    233, 233, 299, 201, 267, 235, 301, 103, 169, 168, 234, 167, 233, 233, 299, 167, 233, 232, 298,
    200, 266, 234, 300, 135, 201, 200, 266, 200, 266, 234, 300, 168, 234, 234, 300, 202, 268, 236,
    302, 71, 137, 136, 202, 135, 201, 201, 267, 135, 201, 200, 266, 200, 266, 234, 300, 135, 201,
    200, 266, 200, 266, 234, 300, 168, 234, 234, 300, 202, 268, 236, 302, 103, 169, 168, 234, 168,
    234, 234, 300, 168, 234, 234, 300, 202, 268, 236, 302, 136, 202, 202, 268, 202, 268, 236, 302,
    170, 236, 236, 302, 204, 270, 238, 304,
];

// Returns the table.
pub fn table() -> &'static [u16; 256]
    ensures { IsTable result.now }
{
    &TABLE
}

// Returns the entry of the byte b.
pub fn entry(b: u8) -> u16
    ensures { result ≡ encoded (summary_of (digit b) 0 8) }
{
    table()[b as usize]
}
