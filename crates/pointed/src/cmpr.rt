// CMPR.
ghost use Rattle.std.specs.Prelude.{◌≡◌, length};
ghost use Rattle.verdict.specs.Verdict.{fault_number};
ghost use Rattle.blocks.specs.Answer.{worked, Does};
ghost use Rattle.pointed.specs.Call.{compare_fault, compared_at, pointer_from};

use crate::register::put_pointer;
use crate::single::bit;
use bits::LONGEST_WHOLE;
use blocks::{Outputs, Power};
use pointer::{Pointer, set_to};
use verdict::{Fault, Refusal};

// Whether the register of a pointer at p and the n words from s on and after the register lie in a table of so many
// words.
fn compare_fault(words: usize, n: usize, s: usize, p: usize) -> Result<(), Fault>
    ensures { fault_number result ≡ compare_fault words n s p }
{
    if words <= p {
        return Err(Fault::Operand);
    }
    runs::fault(LONGEST_WHOLE, words, n, s, p + 1)
}

// The constant that is given, or else the content of the register at p, 0 where that is outside the table.
fn pointer_from(table: &[u16], fixed: Option<u16>, p: usize) -> u16
    ensures { result ≡ pointer_from fixed p table.now }
{
    match fixed {
        Some(value) => value,
        None => section::word(table, p),
    }
}

/// The n words from s on against the n words after the register at p. The pointer is the constant that is given, or else
/// that register's content.
//
// For speed it is inlined into a run's visit of a block, where no constant is ever given.
#[inline(always)]
#[tactic(auto, using(crate::proofs::Refusing::compared_accepted))]
pub fn compare(
    table: &mut [u16],
    fixed: Option<u16>,
    s: usize,
    p: usize,
    n: usize,
    on: Power,
) -> Result<Outputs, Refusal>
    ensures { Does (compare_fault (length table.old) n s p) on
        (compared_at (pointer_from fixed p table.old) table.old s p n on) p n p
        table.old (worked result) table.new }
{
    compare_fault(table.len(), n, s, p)?;
    let matrix = p + 1;
    let size = (16 * n) as u16;
    let at = pointer_from(table, fixed, p);
    let pointer = set_to(0, on.middle, Pointer { at, size });
    if !on.top {
        put_pointer(table, p, on.middle, pointer.at);
        return Ok(Outputs::plain(on.top, false, false));
    }
    let from = pointer.in_range().at;
    let Some(found) = search::first_difference(table, s, matrix, n, from)? else {
        table[p] = size;
        return Ok(Outputs {
            top: on.top,
            middle: false,
            bottom: false,
            count: size.saturating_sub(from),
        });
    };
    let shown = bit(table, s, n, found);
    table[p] = found;
    Ok(Outputs {
        top: on.top,
        middle: true,
        bottom: shown,
        count: found.saturating_sub(from),
    })
}
