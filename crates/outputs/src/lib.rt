// One scan whose outputs come back in a lent list of records, one for each block. It is done on packed numbers, in a list
// of its own.
#![tactic(auto)]

ghost use Rattle.std.specs.Prelude.{◌≡◌, map, ◌++◌, ◌≤◌, length, drop};
ghost use Rattle.verdict.specs.Verdict.{numbered, said_by};
ghost use Rattle.network.specs.Network.{block_count};
ghost use Rattle.network.specs.Check.{network_in};
ghost use Rattle.blocks.specs.Packed.{unpacked};
ghost use Rattle.scan.specs.Scan.{scan_verdict, scan_table, scan_records};
ghost use Rattle.outputs.specs.Inner.{Spelled};

pub use blocks::Outputs;
use blocks::unpacked;
use network::MOST_BLOCKS;
use verdict::Refusal;

// The numbers as records at the front of a list, by index: of what an iterator over mutable entries has written,
// nothing is known afterwards.
fn fill(outputs: &mut [Outputs], numbers: &[u16])
    requires { length numbers.now ≤ length outputs.old }
    ensures { outputs.new ≡ map unpacked numbers.now ++ drop (length numbers.now) outputs.old }
{
    for (k, number) in numbers.iter().enumerate() {
        outputs[k] = unpacked(*number);
    }
}

// A scan for a list of so many entries, as packed numbers at the front of a list; the answer is how many there are.
#[tactic(auto, using(crate::proofs::Recording::refusal_told))]
fn numbers_of(
    words: &[u16],
    table: &mut [u16],
    room: usize,
    numbers: &mut [u16; MOST_BLOCKS],
) -> Result<usize, Refusal>
    ensures answer { numbered result ≡ said_by
        (scan_verdict words.now (length table.old) room) (block_count (network_in words.now)) }
    ensures table { table.new ≡ scan_table words.now table.old room }
    ensures numbers { Spelled words.now table.old room numbers.new }
{
    let room = room.min(MOST_BLOCKS);
    scan::scan_packed(words, table, &mut numbers[..room])?;
    Ok(network::block_count(words) as usize)
}

/// One scan of the network that the words spell, on the table of its areas. Each block's outputs come back in a record of
/// the list; entries after the last block's stay. A table of another size is refused, and so is a list that is shorter
/// than the count of blocks.
pub fn scan(words: &[u16], table: &mut [u16], outputs: &mut [Outputs]) -> Result<(), Refusal>
    ensures answer { numbered result ≡ said_by (scan_verdict words.now (length table.old) (length outputs.old)) tt }
    ensures table { table.new ≡ scan_table words.now table.old (length outputs.old) }
    ensures outputs { outputs.new ≡ scan_records words.now table.old outputs.old }
{
    let mut numbers = [0; MOST_BLOCKS];
    let count = numbers_of(words, table, outputs.len(), &mut numbers)?;
    fill(outputs, &numbers[..count]);
    Ok(())
}
