// The record writer: puts a block's record into lent words.
//
// The call takes any sizes, any record and any buffer. It writes, or it refuses and changes nothing.
#![tactic(auto)]

ghost use Rattle.std.specs.Prelude.{◌≡◌, length};
ghost use Rattle.verdict.specs.Verdict.{numbered, said_by};
ghost use Rattle.record.specs.Record.{spelled};
ghost use Rattle.writer.specs.Writer.{write_verdict, write_buffer, write_tested};

use network::MOST_BLOCKS;
use record::{Block, WORDS};
use rules::judged;
use table::{Sizes, allowed};
use verdict::{Fault, Refusal};

// The words of a record.
fn spell(buffer: &mut [u16], block: Block)
    requires { length buffer.old ≡ 15 }
    ensures { buffer.new ≡ spelled block }
{
    buffer.copy_from_slice(&block.words());
}

// The sizes, k, the words of the record and then how many words the buffer has, tested one after the other.
fn test(sizes: Sizes, k: usize, block: Block, size: usize) -> Result<(), Refusal>
    ensures { result ≡ write_tested sizes k block size }
{
    if !allowed(sizes) {
        return Err(Fault::Limit.at(0));
    }
    if !(1..=MOST_BLOCKS).contains(&k) {
        return Err(Fault::Call.at(0));
    }
    judged(sizes, k - 1, block, 0, WORDS)?;
    if size != WORDS {
        return Err(Fault::Call.at(0));
    }
    Ok(())
}

/// Puts block k's record into 15 lent words.
#[tactic(auto, using(crate::proofs::Writing::write_said, crate::proofs::Writing::buffer_long))]
pub fn write_record(sizes: Sizes, k: usize, block: Block, buffer: &mut [u16]) -> Result<(), Refusal>
    ensures answer { numbered result ≡ said_by (write_verdict sizes k block (length buffer.old)) tt }
    ensures buffer { buffer.new ≡ write_buffer sizes k block buffer.old }
{
    test(sizes, k, block, buffer.len())?;
    spell(buffer, block);
    Ok(())
}
