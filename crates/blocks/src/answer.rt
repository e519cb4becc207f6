// A block's outputs and its count as one number, and back.
ghost use Rattle.std.specs.Prelude.{◌≡◌};
ghost use Rattle.blocks.specs.Packed.{packed, unpacked};

use crate::Outputs;

/// Three outputs and the count as one number, which `scan_packed` and the state of a run promise: top is worth 1, middle 2, bottom 4,
/// each pair counted 8. There is room for a count below 8192, and every block's is.
pub fn packed(out: Outputs) -> u16
    ensures { result ≡ packed out }
{
    out.top as u16 + 2 * out.middle as u16 + 4 * out.bottom as u16 + 8 * (out.count % 8192)
}

/// The outputs and the count that a number spells.
pub fn unpacked(number: u16) -> Outputs
    ensures { result ≡ unpacked number }
{
    Outputs {
        top: bits::bit_at(number, 16),
        middle: bits::bit_at(number, 15),
        bottom: bits::bit_at(number, 14),
        count: number / 8,
    }
}
