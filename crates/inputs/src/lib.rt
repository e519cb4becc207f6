// The power on a block's inputs, from the table and from the outputs of earlier blocks, each packed into one number.
//
// Nothing is asked of a caller: a contact that is numbered 0, or past its area, or past the table's end is off, and so is
// the output of a block that has no entry.
#![tactic(auto)]

ghost use Rattle.std.specs.Prelude.{◌≡◌, map, ◌-◌, get_or};
ghost use Rattle.bits.specs.Bit.{bit, of};
ghost use Rattle.runs.specs.Run.{run};
ghost use Rattle.network.specs.Network.{areas_only};
ghost use Rattle.blocks.specs.Packed.{unpacked};
ghost use Rattle.inputs.specs.Input.{passes, power_on};

use blocks::Power;
use record::{Input, Inputs};
use rules::Source;
use table::Sizes;

// The bit at a position of the n words of a table from s on; at 0 and past them there is none, and it is off. For speed 0
// is tested before the position is counted from 0: fewer instructions than by `checked_sub` and a `match`.
#[tactic(auto, using(crate::proofs::Wired::contacts))]
fn contact(table: &[u16], s: u16, n: u16, number: u16) -> bool
    ensures { result ≡ bit (run table.now s n) number }
{
    if number == 0 {
        return false;
    }
    let i = number - 1;
    let k = i / 16;
    k < n && bits::bit_at(section::word(table, s as usize + k as usize), i % 16 + 1)
}

// The index of a block's entry, whose number counts from 1; number 0 has that of 1.
fn entry(number: u16) -> usize
    ensures { result ≡ number - 1 }
{
    number.saturating_sub(1) as usize
}

// The output at a position of an earlier block's packed number.
fn output(outputs: &[u16], number: u16, position: u16) -> bool
    ensures { result ≡ of (get_or outputs.now (number - 1) 0) position }
{
    bits::bit_at(section::word(outputs, entry(number)), position)
}

// Whether an input passes power. A code that stands for nothing is read as that of a bottom output. For speed it is
// inlined: a scan takes 0.88 of the instructions.
#[tactic(auto, using(crate::proofs::Wired::block_unpacked), unfolding(crate::specs::Input::passes))]
#[inline(always)]
fn passes(table: &[u16], outputs: &[u16], sizes: Sizes, input: Input) -> bool
    ensures { result ≡ passes (areas_only sizes) table.now (map unpacked outputs.now) input }
{
    let number = input.number;
    match Source::try_from(input.code).unwrap_or(Source::BottomOutput) {
        Source::Never => false,
        Source::Always => true,
        Source::OpenCoil => contact(table, 0, sizes.coils, number),
        Source::ClosedCoil => !contact(table, 0, sizes.coils, number),
        Source::OpenDiscrete => contact(table, sizes.coils, sizes.discretes, number),
        Source::ClosedDiscrete => !contact(table, sizes.coils, sizes.discretes, number),
        Source::TopOutput => output(outputs, number, 16),
        Source::MiddleOutput => output(outputs, number, 15),
        Source::BottomOutput => output(outputs, number, 14),
    }
}

/// The power on a block's three inputs.
pub fn power_on(table: &[u16], outputs: &[u16], sizes: Sizes, inputs: Inputs) -> Power
    ensures { result ≡ power_on (areas_only sizes) table.now (map unpacked outputs.now) inputs }
{
    Power {
        top: passes(table, outputs, sizes, inputs.top),
        middle: passes(table, outputs, sizes, inputs.middle),
        bottom: passes(table, outputs, sizes, inputs.bottom),
    }
}
