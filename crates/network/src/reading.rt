// The record of block k.
ghost use Rattle.std.specs.Prelude.{◌≡◌};
ghost use Rattle.verdict.specs.Verdict.{numbered};
ghost use Rattle.network.specs.Check.{read_at};

use crate::checker::Opened;
use areas::areas_end;
use record::{Block, WORDS, block_at};
use verdict::{Fault, Refusal};

/// The record of block k of a network that was opened before: `Fault::Call` for a block that is not there or words that
/// are fewer than the network's, or what the words spell. It checks no word again.
#[tactic(auto, using(areas::proofs::Laws::areas_few), unfolding(crate::specs::Check::read_at, crate::specs::Check::read_verdict))]
pub fn record_at(words: &[u16], opened: Opened, k: usize) -> Result<Block, Refusal>
    ensures { numbered result ≡ read_at words.now opened k }
{
    if !(1..=opened.count as usize).contains(&k) || words.len() < opened.next {
        return Err(Fault::Call.at(0));
    }
    Ok(block_at(words, areas_end(words) + 1 + WORDS as u32 * (k - 1) as u32))
}
