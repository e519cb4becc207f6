// A plan: what a run needs of each block of a network, worked out once, so that an input is one read, a mask and a
// comparison, and a coil one index and one mask.
//
// Nothing is asked of a caller: any words and any opening have a plan, that of the blocks which the reader gives. It has a step
// for each of them, as many as have room; what stands after them stays. Its indexes are into the table; the contract does not say
// that they lie in it.
#![tactic(auto)]

mod steps;

ghost use Rattle.std.specs.Prelude.{◌≡◌, length};
ghost use Rattle.plan.specs.Plan.{planned_blocks, plan_put};

use kinds::Work;
use network::Opened;
use steps::step_of;

/// An output of a block.
#[derive(Clone, Copy, Debug, PartialEq, Eq)]
pub enum Output {
    Top,
    Middle,
    Bottom,
}

/// Where an input's power comes from: always or never; a word of the table by its index that, masked, is to be the wanted one; an
/// output of an earlier block, counted from 0.
#[derive(Clone, Copy, Debug, PartialEq, Eq)]
pub enum Look {
    Fixed(bool),
    Contact { at: u32, mask: u16, wanted: u16 },
    Earlier { block: u16, output: Output },
}

/// A coil: the index of its word, and the mask of its bit there.
#[derive(Clone, Copy, Debug, PartialEq, Eq)]
pub struct Spot {
    pub at: u32,
    pub mask: u16,
}

/// What a run needs of a block: its work, on n words; its inputs and its coils, each top, middle, bottom.
#[derive(Clone, Copy, Debug, PartialEq, Eq)]
pub struct Step {
    pub work: Work,
    pub n: u16,
    pub inputs: [Look; 3],
    pub coils: [Option<Spot>; 3],
}

/// A step that is of no block.
pub const NO_STEP: Step = Step {
    work: Work::Unknown,
    n: 0,
    inputs: [Look::Fixed(false); 3],
    coils: [None; 3],
};

/// The steps of the blocks that the reader gives of an opened network, from the first until it refuses, at the front of a list, as
/// many as have room there; the answer is how many.
//
// By index: of what an iterator over mutable entries has written, nothing is known afterwards.
#[tactic(auto, using(crate::proofs::Filling::put_next))]
pub fn put_plan(words: &[u16], opened: Opened, plan: &mut [Step]) -> usize
    ensures answer { result ≡ length (planned_blocks words.now opened (length plan.old)) }
    ensures steps { plan.new ≡ plan_put words.now opened plan.old }
{
    let sizes = opened.sizes();
    let count = plan.len().min(opened.count() as usize);
    for k in 0..count {
        let Ok(block) = network::record_at(words, opened, k + 1) else {
            return k;
        };
        plan[k] = step_of(sizes, block);
    }
    count
}
