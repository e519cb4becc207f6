// SENS.
ghost use Rattle.std.specs.Prelude.{length};
ghost use Rattle.blocks.specs.Answer.{worked, Does};
ghost use Rattle.pointed.specs.Call.{sensed_at};
ghost use Rattle.pointed.specs.Places.{held, place_fault, place_word, value_in};

use crate::place::Place;
use crate::register::{is_taken, pointed_fault, put_held};
use crate::single::bit;
use blocks::{Outputs, Power};
use pointer::{Pointer, next, set_to};
use verdict::Refusal;

/// The bit at a pointer of the n words from s on.
#[tactic(auto, using(crate::proofs::Stepping::sensing))]
pub fn sense(
    table: &mut [u16],
    pointer: &Place,
    s: usize,
    n: usize,
    on: Power,
) -> Result<Outputs, Refusal>
    ensures { Does (place_fault (length table.old) pointer.now n s) on
        (sensed_at (held pointer.now) (value_in pointer.now table.old) table.old s n on)
        s n (place_word pointer.now) table.old (worked result) table.new }
{
    pointed_fault(table.len(), pointer, n, s)?;
    let at = pointer.value(table);
    let size = (16 * n) as u16;
    let reset = is_taken(pointer, on.bottom);
    let begun = set_to(1, reset, Pointer { at, size });
    if !on.top {
        put_held(table, pointer, reset, begun.at);
        return Ok(Outputs::plain(on.top, false, false));
    }
    if size < begun.at {
        return Ok(Outputs::plain(on.top, false, true));
    }
    let sensed = bit(table, s, n, begun.at);
    let increase = is_taken(pointer, on.middle);
    put_held(table, pointer, increase | reset, next(increase, begun));
    Ok(Outputs::plain(on.top, sensed, false))
}
