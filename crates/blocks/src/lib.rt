// What a block is, reads, does and writes: the definitions that the kinds' calls promise, and the values that they
// take and answer.
#![tactic(auto)]

ghost use Rattle.std.specs.Prelude.{◌≡◌};
ghost use Rattle.blocks.specs.Work.{shows};

mod answer;

pub use answer::{packed, unpacked};
use record::Block;

/// Power on a block's three inputs.
#[derive(Clone, Copy, Debug, PartialEq, Eq)]
pub struct Power {
    pub top: bool,
    pub middle: bool,
    pub bottom: bool,
}

/// The three outputs of a block, and how many bit pairs a compare examined; 0 for every other kind.
#[derive(Clone, Copy, Debug, PartialEq, Eq)]
pub struct Outputs {
    pub top: bool,
    pub middle: bool,
    pub bottom: bool,
    pub count: u16,
}

impl Outputs {
    /// The outputs of a block that examined no pairs.
    pub fn plain(top: bool, middle: bool, bottom: bool) -> Outputs
        ensures { result ≡ shows top middle bottom 0 }
    {
        Outputs {
            top,
            middle,
            bottom,
            count: 0,
        }
    }
}

/// A block's record, and the indexes of its nodes' first words.
#[derive(Clone, Copy, Debug, PartialEq, Eq)]
pub struct Located {
    pub block: Block,
    pub top: usize,
    pub middle: usize,
}
