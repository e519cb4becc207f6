// The areas in words: a network's first section, the sizes of its areas and the level, each word when it is reached.
//
// Every call takes any words.
#![tactic(auto)]

ghost use Rattle.std.specs.Prelude.{◌≡◌};
ghost use Rattle.verdict.specs.Verdict.{numbered, said_by};
ghost use Rattle.section.specs.Walk.{first_of};
ghost use Rattle.areas.specs.Areas.{has_level, sizes_of, areas_end, areas_judged, level_tested, areas_tested};

use level::MOST_LEVEL;
use section::{count, counted, reach, up_to, word};
use table::{MOST_COILS, MOST_DISCRETES, MOST_HOLDING, MOST_INPUTS, Sizes};
use verdict::{Fault, Refusal};

// The level where it is not among the words.
const LEFT_OUT: u16 = 1;

// Whether the level is among the words.
fn has_level(words: &[u16]) -> bool
    ensures { result ≡ has_level (first_of words.now) }
{
    word(words, 0) == 5
}

/// The index after the areas, whatever the words are.
pub fn areas_end(words: &[u16]) -> u32
    ensures { result ≡ areas_end words.now }
{
    if has_level(words) { 6 } else { 5 }
}

// The level, which stands after the four sizes or is left out.
fn level_in(words: &[u16]) -> u16
    ensures { result ≡ (sizes_of words.now).level }
{
    if has_level(words) {
        word(words, 5)
    } else {
        LEFT_OUT
    }
}

/// The four sizes, which stand after their count, and the level, as the words spell them, refused words too.
pub fn sizes_in(words: &[u16]) -> Sizes
    ensures { result ≡ sizes_of words.now }
{
    Sizes {
        coils: word(words, 1),
        discretes: word(words, 2),
        inputs: word(words, 3),
        holding: word(words, 4),
        level: level_in(words),
    }
}

// The level, where it is among the words.
fn test_level(words: &[u16], sizes: Sizes) -> Result<(), Refusal>
    ensures { result ≡ level_tested words.now sizes }
{
    if has_level(words) {
        reach(
            counted(MOST_LEVEL, sizes.level as usize, Fault::Limit),
            0,
            5,
            words.len(),
        )
    } else {
        Ok(())
    }
}

// The count, the four sizes and the level, tested one after the other: one flat list of them in their order, each with
// its place, as the definition `areas_tested` has it. Apart from `areas_of` and its contract in numbers, so that each
// `?` is proved once.
#[tactic(auto, unfolding(crate::specs::Areas::areas_tested))]
fn test(words: &[u16]) -> Result<Sizes, Refusal>
    ensures { result ≡ areas_tested words.now }
{
    let sizes = sizes_in(words);
    let size = words.len();
    count(word(words, 0) == 4 || has_level(words), 0, size)?;
    reach(
        up_to(MOST_COILS, sizes.coils as usize, Fault::Limit),
        0,
        1,
        size,
    )?;
    reach(
        up_to(MOST_DISCRETES, sizes.discretes as usize, Fault::Limit),
        0,
        2,
        size,
    )?;
    reach(
        up_to(MOST_INPUTS, sizes.inputs as usize, Fault::Limit),
        0,
        3,
        size,
    )?;
    reach(
        up_to(MOST_HOLDING, sizes.holding as usize, Fault::Limit),
        0,
        4,
        size,
    )?;
    test_level(words, sizes)?;
    Ok(sizes)
}

/// The sizes of the areas at the front of the words, whatever follows them, and the level.
#[tactic(auto, using(crate::proofs::Tested::areas_said))]
pub fn areas_of(words: &[u16]) -> Result<Sizes, Refusal>
    ensures steps { result ≡ areas_tested words.now }
    ensures number { numbered result ≡ said_by (areas_judged words.now) (sizes_of words.now) }
{
    test(words)
}
