// One scan: every block of a network once, in order, each with its inputs from the table as earlier blocks left it and
// from earlier outputs.
//
// A scan takes any words, any table and any outputs. It does its work, or it refuses and changes nothing. The records of
// a network are checked, read and located before its first block runs.
#![tactic(auto)]

mod block;
mod coil;
mod located;

ghost use Rattle.std.specs.Prelude.{◌≡◌, length};
ghost use Rattle.verdict.specs.Verdict.{numbered, said_by};
ghost use Rattle.network.specs.Network.{areas_only};
ghost use Rattle.network.specs.Check.{network_in, opened_value};
ghost use Rattle.scan.specs.Scan.{scan_verdict, scan_table, scan_packed};
ghost use Rattle.scan.specs.Inner.{Next, Ran, AllReady, AllRan, fit_test};

use crate::block::run;
use crate::located::blocks_of;
use blocks::Located;
use network::Opened;
use table::Sizes;
use verdict::{Fault, Refusal};

// One block: the power on its inputs, with the outputs of the k earlier blocks, which stand at the front; its work; its
// outputs into the entry after theirs.
fn run_one(table: &mut [u16], outputs: &mut [u16], sizes: Sizes, one: Located, k: usize)
    requires { Next (areas_only sizes) one table.old outputs.old k }
    ensures { Ran (areas_only sizes) one k table.old outputs.old table.new outputs.new }
{
    let on = inputs::power_on(table, &outputs[..k], sizes, one.block.inputs);
    outputs[k] = blocks::packed(run(table, sizes, one, on));
}

// Every block of an opened network in order, by its number, which the place of its outputs needs. The outputs go to the
// front of the list.
fn run_all(words: &[u16], opened: Opened, table: &mut [u16], outputs: &mut [u16])
    requires { AllReady words.now opened table.old outputs.old }
    ensures { AllRan (network_in words.now) table.old outputs.old table.new outputs.new }
{
    let blocks = blocks_of(words, opened);
    let sizes = opened.sizes();
    let count = opened.count() as usize;
    for k in 0..count {
        run_one(table, outputs, sizes, blocks[k], k);
    }
}

// Whether a table of so many words is the network's, and a list of so many entries has one for each block.
fn fits(opened: Opened, size: usize, room: usize) -> Result<(), Refusal>
    ensures { result ≡ fit_test opened size room }
{
    if size == table::total(opened.sizes()) as usize && opened.count() as usize <= room {
        Ok(())
    } else {
        Err(Fault::Call.at(0))
    }
}

// The network that all of the words spell, for a table of so many words and a list of so many entries.
#[tactic(auto, using(crate::proofs::Verdicts::admitting))]
fn admitted(words: &[u16], size: usize, room: usize) -> Result<Opened, Refusal>
    ensures { numbered result ≡ said_by (scan_verdict words.now size room) (opened_value words.now) }
{
    let opened = network::opening(words)?;
    fits(opened, size, room)?;
    Ok(opened)
}

/// One scan of the network that the words spell, on the table of its areas. Each block's outputs and its count come back
/// as one number, top worth 1, middle 2, bottom 4, each pair counted 8; entries after the last block's stay. A table of
/// another size is refused, and so is a list that is shorter than the count of blocks.
#[tactic(auto, using(crate::proofs::Verdicts::answering))]
pub fn scan_packed(words: &[u16], table: &mut [u16], outputs: &mut [u16]) -> Result<(), Refusal>
    ensures answer { numbered result ≡ said_by (scan_verdict words.now (length table.old) (length outputs.old)) tt }
    ensures table { table.new ≡ scan_table words.now table.old (length outputs.old) }
    ensures outputs { outputs.new ≡ scan_packed words.now table.old outputs.old }
{
    let opened = admitted(words, table.len(), outputs.len())?;
    run_all(words, opened, table, outputs);
    Ok(())
}
