// AND, OR, XOR, COMP and BROT: a whole matrix goes to the destination.
ghost use Rattle.std.specs.Prelude.{length};
ghost use Rattle.runs.specs.Run.{fault};
ghost use Rattle.bits.specs.Bit.{longest_whole};
ghost use Rattle.blocks.specs.Answer.{worked, Does};
ghost use Rattle.kinds.specs.Inner.{combined_at, rotated_at};

use bits::LONGEST_WHOLE;
use blocks::{Outputs, Power};
use matrix::Operation;
use verdict::Refusal;

// The operation on the n words from s on and the n words from d on. For speed it is inlined, so that the operation is
// known in each call of it.
#[inline(always)]
pub(crate) fn logic(
    table: &mut [u16],
    operation: Operation,
    s: usize,
    d: usize,
    n: usize,
    on: Power,
) -> Result<Outputs, Refusal>
    ensures { Does (fault longest_whole (length table.old) n s d) on (combined_at operation table.old s d n on) d n s
        table.old (worked result) table.new }
{
    if !on.top {
        runs::fault(LONGEST_WHOLE, table.len(), n, s, d)?;
        return Ok(Outputs::plain(on.top, false, false));
    }
    matrix::combine(table, operation, s, d, n)?;
    Ok(Outputs::plain(on.top, false, false))
}

// The n words from s on moved one position: left with power on middle, the bit that leaves entering with power on
// bottom.
pub(crate) fn rotate(
    table: &mut [u16],
    s: usize,
    d: usize,
    n: usize,
    on: Power,
) -> Result<Outputs, Refusal>
    ensures { Does (fault longest_whole (length table.old) n s d) on (rotated_at table.old s n on) d n s
        table.old (worked result) table.new }
{
    if !on.top {
        runs::fault(LONGEST_WHOLE, table.len(), n, s, d)?;
        return Ok(Outputs::plain(on.top, false, false));
    }
    let left = matrix::move_one(table, s, d, n, on.middle, on.bottom)?;
    Ok(Outputs::plain(on.top, left, false))
}
