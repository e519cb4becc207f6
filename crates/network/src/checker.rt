// The checker: the areas, then the blocks, each word when it is reached.
ghost use Rattle.std.specs.Prelude.{◌≡◌, ◌≤◌};
ghost use Rattle.verdict.specs.Verdict.{numbered, said_by};
ghost use Rattle.network.specs.Network.{block_count};
ghost use Rattle.network.specs.Check.{network_in, network_end, checked, leading, opened};
ghost use Rattle.network.specs.Steps.{records_tested, front_tested, whole_tested};

use areas::{areas_end, areas_of};
use record::{WORDS, block_at};
use rules::judged;
use section::word;
use table::Sizes;
use verdict::{Fault, Refusal};

/// An accepted network: the sizes with the level, the count of blocks, and the index after the last block.
#[derive(Clone, Copy, Debug, PartialEq, Eq)]
pub struct Opened {
    pub(crate) sizes: Sizes,
    pub(crate) count: u16,
    pub(crate) next: usize,
}

impl Opened {
    /// The sizes of the areas, and the level.
    pub fn sizes(self) -> Sizes
        ensures { result ≡ self.sizes }
    {
        self.sizes
    }

    /// How many blocks there are.
    pub fn count(self) -> u16
        ensures { result ≡ self.count }
    {
        self.count
    }

    /// The index after the last block.
    pub fn next(self) -> usize
        ensures { result ≡ self.next }
    {
        self.next
    }
}

/// The most blocks of a network.
pub const MOST_BLOCKS: usize = 128;

// The words of so many blocks, which stand from an index on, tested one after the other.
#[tactic(auto, using(crate::proofs::Steps::one_record, crate::proofs::Steps::no_record))]
fn records(words: &[u16], sizes: Sizes, from: u32, count: u16) -> Result<(), Refusal>
    requires { from ≤ 7 }
    ensures { result ≡ records_tested sizes words.now from 0 count }
{
    for j in 0..count {
        let at = from + WORDS as u32 * j as u32;
        judged(sizes, j as usize, block_at(words, at), at, words.len())?;
    }
    Ok(())
}

/// How many blocks the words spell.
#[tactic(auto, using(crate::proofs::Networks::count_is))]
pub fn block_count(words: &[u16]) -> u16
    ensures { result ≡ block_count (network_in words.now) }
{
    word(words, areas_end(words) as usize)
}

/// The index after the last block, as the words spell it, refused words too.
#[tactic(auto, using(crate::proofs::Networks::end_is, crate::proofs::Networks::count_is, areas::proofs::Laws::areas_few))]
pub fn end(words: &[u16]) -> usize
    ensures { result ≡ network_end words.now }
{
    areas_end(words) as usize + 1 + WORDS * block_count(words) as usize
}

// The areas, the count of the blocks and the blocks, tested one after the other. Apart from `leading` and its contract
// in numbers, so that each `?` is proved once; and so is `whole` apart from `opening`.
#[tactic(auto, using(areas::proofs::Laws::areas_few, crate::proofs::Networks::end_is))]
fn front(words: &[u16]) -> Result<Opened, Refusal>
    ensures { result ≡ front_tested words.now }
{
    let sizes = areas_of(words)?;
    let at = areas_end(words);
    let count = word(words, at as usize);
    section::count(count as usize <= MOST_BLOCKS, at, words.len())?;
    records(words, sizes, at + 1, count)?;
    // Where the blocks end, `end` alone says.
    let next = end(words);
    Ok(Opened { sizes, count, next })
}

// And then nothing.
fn whole(words: &[u16]) -> Result<Opened, Refusal>
    ensures { result ≡ whole_tested words.now }
{
    let opened = front(words)?;
    if opened.next < words.len() {
        return Err(Fault::LeftOver.at(opened.next + 1));
    }
    Ok(opened)
}

/// The network at the front of the words, whatever follows it.
#[tactic(auto, using(crate::proofs::Steps::front_said))]
pub fn leading(words: &[u16]) -> Result<Opened, Refusal>
    ensures steps { result ≡ front_tested words.now }
    ensures number { numbered result ≡ leading words.now }
{
    front(words)
}

/// The network that is all of the words.
#[tactic(auto, using(crate::proofs::Steps::whole_said))]
pub fn opening(words: &[u16]) -> Result<Opened, Refusal>
    ensures { numbered result ≡ opened words.now }
{
    whole(words)
}

/// The first refusal.
pub fn check(words: &[u16]) -> Result<(), Refusal>
    ensures { numbered result ≡ said_by (checked words.now) tt }
{
    opening(words).map(|_| ())
}
