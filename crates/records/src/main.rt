// Opens a reader on a network's words and lends a list of records to its scans, and prints what comes back.
//
// A line of a reader has the block and its record. A line of a scan has the five entries of the lent list, each with
// its top, middle and bottom output, and the words of the table in hex. Before each scan every entry is 0 1 1, which no
// block leaves: so the fifth entry is seen to stay where there are four blocks, and all five where the scan is refused.
// A refusal is told by its number and place. What is printed must be what stands in the file stdout. The program stops
// at the first write that fails, and prints nothing after it.
#![tactic(auto)]

mod lent;
mod print;

use crate::lent::{ask, lend};
use crate::print::{List, Record, Refused, Table};
use outputs::Outputs;
use std::io;

// CMPR of 40001 with 40003, to coil 1; MBIT, with power from the middle output of block 1; BROT of 40006; SENS, with
// power from coil 1; COMP and AND of 40005.
const BLOCKS: [[u16; 15]; 6] = [
    [5, 1, 4, 1, 4, 2, 1, 0, 0, 0, 0, 0, 0, 1, 0],
    [6, 1, 4, 4, 4, 5, 7, 1, 1, 0, 1, 0, 0, 0, 0],
    [8, 1, 4, 6, 4, 6, 1, 0, 0, 0, 1, 0, 0, 0, 0],
    [7, 1, 9, 17, 4, 5, 2, 1, 0, 0, 0, 0, 0, 0, 0],
    [4, 1, 4, 5, 4, 7, 1, 0, 0, 0, 0, 0, 0, 0, 0],
    [1, 1, 4, 5, 4, 8, 1, 0, 0, 0, 0, 0, 0, 0, 0],
];

// The words of a network of the same areas at level 2, and the first of these blocks.
const LEVEL_2: [u16; 22] = [
    5, 1, 0, 0, 8, 2, 1, 5, 1, 4, 1, 4, 2, 1, 0, 0, 0, 0, 0, 0, 1, 0,
];

const IMAGE: [u16; 9] = [0, 0x8000, 0, 0x4000, 16, 0, 0x0005, 0, 0];

const BEFORE: Outputs = Outputs {
    top: false,
    middle: true,
    bottom: true,
    count: 9,
};

// The words of a network of one word of coils, eight holding registers and so many blocks; all six stand there.
fn words_of(count: u16) -> [u16; 96] {
    let mut words = [0; 96];
    words[..6].copy_from_slice(&[4, 1, 0, 0, 8, count]);
    for (k, block) in BLOCKS.iter().enumerate() {
        words[6 + 15 * k..21 + 15 * k].copy_from_slice(block);
    }
    words
}

// What a reader opened on these words says of them, and of blocks 0 to 5.
fn reader(rt: &impl Print, words: &[u16]) -> io::Result<()> {
    let asked = ask(words, 0);
    print!(rt; "words {}:", words.len())?;
    if let Err(refusal) = asked.opened {
        print!(rt; "{},", Refused(refusal))?;
    }
    println!(rt; " blocks {}", asked.count)?;
    for k in 0..6 {
        match ask(words, k).read {
            Ok(block) => println!(rt; "block {k}:{}", Record(block))?,
            Err(refusal) => println!(rt; "block {k}:{}", Refused(refusal))?,
        }
    }
    Ok(())
}

// One scan and its line.
fn scan(rt: &impl Print, name: &str, words: &[u16], table: &mut [u16]) -> io::Result<()> {
    let scanned = lend(words, table, [BEFORE; 5]);
    print!(rt; "{name}:")?;
    if let Err(refusal) = scanned.answer {
        print!(rt; "{},", Refused(refusal))?;
    }
    println!(rt; "{}{}", List(scanned.list), Table(table))
}

fn main(rt: HostRuntime) -> io::Result<()> {
    let rt = &rt;
    let four = words_of(4);
    let words = &four[..66];
    let short = &four[..65];
    let mut table = IMAGE;
    reader(rt, words)?;
    reader(rt, short)?;
    reader(rt, &LEVEL_2)?;
    scan(rt, "scan 1", words, &mut table)?;
    scan(rt, "scan 2", words, &mut table)?;
    scan(rt, "scan 3", words, &mut table)?;
    scan(rt, "short words", short, &mut table)?;
    scan(rt, "six blocks", &words_of(6), &mut table)?;
    scan(rt, "level 2", &LEVEL_2, &mut table)
}
