// MBIT.
ghost use Rattle.std.specs.Prelude.{length};
ghost use Rattle.blocks.specs.Answer.{worked, Does};
ghost use Rattle.pointed.specs.Call.{modified_at};
ghost use Rattle.pointed.specs.Places.{held, place_fault, place_word, value_in};

use crate::place::Place;
use crate::register::{is_taken, pointed_fault, put_held};
use crate::single::put_at;
use blocks::{Outputs, Power};
use pointer::{Pointer, next};
use verdict::Refusal;

/// The n words from d on with the bit at a pointer put.
#[tactic(auto, using(crate::proofs::Stepping::modifying))]
pub fn modify(
    table: &mut [u16],
    pointer: &Place,
    d: usize,
    n: usize,
    on: Power,
) -> Result<Outputs, Refusal>
    ensures { Does (place_fault (length table.old) pointer.now n d) on
        (modified_at (held pointer.now) (value_in pointer.now table.old) table.old d n on)
        d n (place_word pointer.now) table.old (worked result) table.new }
{
    pointed_fault(table.len(), pointer, n, d)?;
    let at = pointer.value(table);
    let size = (16 * n) as u16;
    if !on.top {
        return Ok(Outputs::plain(on.top, false, false));
    }
    if size < at {
        return Ok(Outputs::plain(on.top, on.middle, true));
    }
    put_at(table, d, n, at, on.middle);
    let increase = is_taken(pointer, on.bottom);
    put_held(
        table,
        pointer,
        increase,
        next(increase, Pointer { at, size }),
    );
    Ok(Outputs::plain(on.top, on.middle, false))
}
