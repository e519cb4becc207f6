// The records of an opened network, read out of its words once, before its first block runs.
ghost use Rattle.std.specs.Prelude.{◌≡◌};
ghost use Rattle.network.specs.Network.{areas_only};
ghost use Rattle.network.specs.Check.{network_in};
ghost use Rattle.blocks.specs.View.{first_word, located};
ghost use Rattle.scan.specs.Inner.{Legible, Locates};

use blocks::Located;
use network::{MOST_BLOCKS, Opened};
use record::{Block, Coils, Input, Inputs, Node};
use table::Sizes;

// Written out: the parts of a record have no default, as no block's record is all zeros.
const NO_NODE: Node = Node {
    class: 0,
    number: 0,
};

const NO_INPUT: Input = Input { code: 0, number: 0 };

const NO_INPUTS: Inputs = Inputs {
    top: NO_INPUT,
    middle: NO_INPUT,
    bottom: NO_INPUT,
};

const NO_COILS: Coils = Coils {
    top: 0,
    middle: 0,
    bottom: 0,
};

const NO_BLOCK: Block = Block {
    kind: 0,
    n: 0,
    top: NO_NODE,
    middle: NO_NODE,
    inputs: NO_INPUTS,
    coils: NO_COILS,
};

// What stands where there is no block.
const NOTHING: Located = Located {
    block: NO_BLOCK,
    top: 0,
    middle: 0,
};

// The index of a node's first word.
fn first_word(sizes: Sizes, node: Node) -> usize
    ensures { result ≡ first_word (areas_only sizes) node }
{
    table::start(sizes, node.class, node.number)
}

// A block, and the indexes of its nodes' first words.
fn located(sizes: Sizes, block: Block) -> Located
    ensures { result ≡ located (areas_only sizes) block }
{
    Located {
        block,
        top: first_word(sizes, block.top),
        middle: first_word(sizes, block.middle),
    }
}

// The records of a network's blocks, in their order. They are put by index: of what an iterator over mutable entries has
// written, nothing is known afterwards.
pub(crate) fn blocks_of(words: &[u16], opened: Opened) -> [Located; MOST_BLOCKS]
    requires { Legible words.now opened }
    ensures { Locates (network_in words.now) result }
{
    let mut blocks = [NOTHING; MOST_BLOCKS];
    for k in 0..opened.count() as usize {
        let Ok(block) = network::record_at(words, opened, k + 1) else {
            return blocks;
        };
        blocks[k] = located(opened.sizes(), block);
    }
    blocks
}
