// The refusal that each word of a record earns when it is reached. Checker and writer judge by `judged` alone.
//
// `test` and `contact_of`, which it calls three times, are always inlined: see `judged`.
ghost use Rattle.std.specs.Prelude.{◌≡◌};
ghost use Rattle.verdict.specs.Verdict.{numbered, said_by};
ghost use Rattle.rules.specs.Fault.{top_words, judged};
ghost use Rattle.rules.specs.Judge.{kind_test, class_test, source_test, number_test, contact_test, tested};

use crate::codes::{Class, Kind, Source};
use crate::rules::{Classes, rule_of};
use level::{at_level, constant_at};
use record::{Block, WORDS};
use section::{counted, reach, up_to};
use table::Sizes;
use verdict::{Fault, Refusal};

// The kind of a kind's number.
fn kind_of(kind: u16) -> Result<Kind, Fault>
    ensures { result ≡ kind_test kind }
{
    Kind::try_from(kind).map_err(|_| Fault::Kind)
}

// The source of an input's code.
fn source_of(code: u16) -> Result<Source, Fault>
    ensures { result ≡ source_test code }
{
    Source::try_from(code).map_err(|_| Fault::Input)
}

// The class of a node that may have it.
fn class_of(classes: Classes, class: u16) -> Result<Class, Fault>
    ensures { result ≡ class_test classes class }
{
    match Class::try_from(class) {
        Ok(class) if classes.allows(class) => Ok(class),
        _ => Err(Fault::Class),
    }
}

// Whether a node's number is one of its class: of so many words, or of a constant.
fn number_of(sizes: Sizes, class: Class, number: u16, words: u32) -> Result<(), Fault>
    ensures { result ≡ number_test sizes class number words }
{
    match class {
        Class::Area(area) => area.holds(sizes, number, words),
        Class::Constant => up_to(
            constant_at(sizes.level) as usize,
            number as usize,
            Fault::Class,
        ),
    }
}

// Whether an input's number is one of its source, where so many blocks are earlier.
#[inline(always)]
fn contact_of(sizes: Sizes, earlier: usize, source: Source, number: u16) -> Result<(), Fault>
    ensures { result ≡ contact_test sizes earlier source number }
{
    let number = number as usize;
    match source {
        Source::Never | Source::Always => up_to(0, number, Fault::Input),
        Source::OpenCoil | Source::ClosedCoil => counted(
            16 * sizes.coils as usize,
            number,
            Fault::Input,
        ),
        Source::OpenDiscrete | Source::ClosedDiscrete => counted(
            16 * sizes.discretes as usize,
            number,
            Fault::Input,
        ),
        Source::TopOutput | Source::MiddleOutput | Source::BottomOutput => counted(
            earlier,
            number,
            Fault::Input,
        ),
    }
}

// How many words the top node refers to: a pointer is one register.
fn top_words(pointer: bool, n: u16) -> u16
    ensures { result ≡ top_words pointer n }
{
    if pointer { 1 } else { n }
}

// The 15 words of a record, tested one after the other: one flat list of them in their order, each with its place, as
// the definition `tested` has it, so that the two can be read side by side.
#[tactic(auto, unfolding(crate::specs::Judge::tested))]
#[inline(always)]
fn test(sizes: Sizes, earlier: usize, block: Block, at: u32, size: usize) -> Result<(), Refusal>
    ensures { result ≡ tested sizes earlier block at size }
{
    let kind = reach(kind_of(block.kind), at, 0, size)?;
    let rule = rule_of(kind);
    let most = at_level(rule.most, sizes.level) as usize;
    reach(counted(most, block.n as usize, Fault::Length), at, 1, size)?;
    let class = reach(class_of(rule.top, block.top.class), at, 2, size)?;
    let words = top_words(rule.pointer, block.n) as u32;
    reach(
        number_of(sizes, class, block.top.number, words),
        at,
        3,
        size,
    )?;
    let class = reach(class_of(rule.middle, block.middle.class), at, 4, size)?;
    let words = block.n as u32 + rule.extra as u32;
    reach(
        number_of(sizes, class, block.middle.number, words),
        at,
        5,
        size,
    )?;
    let inputs = block.inputs;
    let source = reach(source_of(inputs.top.code), at, 6, size)?;
    reach(
        contact_of(sizes, earlier, source, inputs.top.number),
        at,
        7,
        size,
    )?;
    let source = reach(source_of(inputs.middle.code), at, 8, size)?;
    reach(
        contact_of(sizes, earlier, source, inputs.middle.number),
        at,
        9,
        size,
    )?;
    let source = reach(source_of(inputs.bottom.code), at, 10, size)?;
    reach(
        contact_of(sizes, earlier, source, inputs.bottom.number),
        at,
        11,
        size,
    )?;
    let most = 16 * sizes.coils as usize;
    reach(
        up_to(most, block.coils.top as usize, Fault::Coil),
        at,
        12,
        size,
    )?;
    reach(
        up_to(most, block.coils.middle as usize, Fault::Coil),
        at,
        13,
        size,
    )?;
    reach(
        up_to(most, block.coils.bottom as usize, Fault::Coil),
        at,
        14,
        size,
    )
}

/// The first refusal among the 15 words of a record that so many blocks are before; the words stand from index `at` on
/// among so many words. A word that is missing is refused as such.
#[tactic(auto, using(crate::proofs::Tested::tested_says, crate::proofs::Tested::tested_there))]
pub fn judged(
    sizes: Sizes,
    earlier: usize,
    block: Block,
    at: u32,
    size: usize,
) -> Result<(), Refusal>
    ensures steps { result ≡ tested sizes earlier block at size }
    ensures number { numbered result ≡ said_by (judged sizes earlier block at size) tt }
{
    // The same call twice, compiled in twice: where all the words are there, the test of each place is settled
    // beforehand. A check of 128 blocks and one scan take 270 thousand instructions so, and else 313 thousand.
    let end = at as usize + WORDS;
    if end <= size {
        test(sizes, earlier, block, at, end)
    } else {
        test(sizes, earlier, block, at, size)
    }
}
