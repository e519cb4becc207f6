// The record writer and the reader.
ghost use Rattle.std.specs.Prelude.{◌≤◌, length};

use crate::print::{Answer, Numbers};
use crate::words::front;
use record::{Block, block_at};
use std::io;
use table::Sizes;

// Areas at level 1.
const AREAS: Sizes = Sizes {
    coils: 32,
    discretes: 16,
    inputs: 96,
    holding: 820,
    level: 1,
};

// AND, CMPR, MBIT, SENS, and one of length 0.
const RECORDS: [[u16; 15]; 5] = [
    [1, 15, 1, 17, 0, 33, 2, 512, 3, 1, 4, 256, 1, 2, 3],
    [5, 96, 3, 1, 4, 724, 5, 1, 0, 0, 1, 0, 0, 511, 512],
    [6, 255, 9, 999, 4, 566, 1, 0, 1, 0, 1, 0, 7, 7, 7],
    [7, 255, 9, 0, 4, 566, 1, 0, 5, 255, 4, 254, 0, 0, 0],
    [5, 0, 3, 1, 4, 724, 5, 1, 0, 0, 0, 0, 0, 0, 0],
];

// The length and the constant that Level 2 takes and Level 1 does not, and one more; levels that are none.
const RECORDS_AT: [(u16, [u16; 15]); 9] = [
    (1, [7, 255, 9, 999, 4, 566, 1, 0, 0, 0, 0, 0, 0, 0, 0]),
    (1, [7, 256, 9, 999, 4, 565, 1, 0, 0, 0, 0, 0, 0, 0, 0]),
    (1, [7, 255, 9, 1000, 4, 566, 1, 0, 0, 0, 0, 0, 0, 0, 0]),
    (2, [7, 600, 9, 9600, 4, 221, 1, 0, 0, 0, 0, 0, 0, 0, 0]),
    (2, [7, 601, 9, 9600, 4, 220, 1, 0, 0, 0, 0, 0, 0, 0, 0]),
    (2, [7, 600, 9, 9601, 4, 221, 1, 0, 0, 0, 0, 0, 0, 0, 0]),
    (2, [5, 101, 3, 1, 4, 719, 1, 0, 0, 0, 0, 0, 0, 0, 0]),
    (0, [7, 1, 9, 0, 4, 1, 1, 0, 0, 0, 0, 0, 0, 0, 0]),
    (3, [7, 1, 9, 0, 4, 1, 1, 0, 0, 0, 0, 0, 0, 0, 0]),
];

// The writer on a CMPR of 40001 in a table of so many words of coils and three holding registers, at a level: k, how
// many words are lent, the number of the pointer, the code and the number of the top input.
const WRITES: [[u16; 7]; 16] = [
    // The order of the writer's tests: sizes, k, the 15 words, the buffer.
    [129, 1, 0, 14, 3, 1, 0],
    [0, 0, 0, 14, 3, 1, 0],
    [0, 3, 0, 14, 3, 1, 0],
    [0, 3, 1, 15, 2, 1, 0],
    [0, 2, 1, 15, 2, 1, 0],
    [0, 1, 0, 14, 3, 1, 0],
    [0, 1, 129, 14, 3, 1, 0],
    [0, 1, 1, 14, 3, 1, 0],
    [0, 1, 1, 14, 2, 1, 0],
    [0, 1, 1, 15, 2, 1, 0],
    [0, 1, 1, 16, 2, 1, 0],
    [0, 1, 128, 0, 2, 1, 0],
    // A record that reads an earlier block: k says how many are earlier.
    [0, 1, 1, 15, 2, 6, 1],
    [0, 1, 2, 15, 2, 6, 1],
    [0, 1, 128, 15, 2, 8, 127],
    [0, 1, 128, 15, 2, 8, 128],
];

// These areas; CMPR of 40001 with 40003, whose pointer is 40002; BROT of 40004 and 40005 into 40006 and 40007, with
// power from the CMPR's middle output.
const WORDS: [u16; 36] = [
    4, 32, 16, 96, 820, 2, 5, 1, 4, 1, 4, 2, 1, 0, 0, 0, 0, 0, 0, 0, 0, 8, 2, 4, 4, 4, 6, 7, 1, 0,
    0, 0, 0, 0, 0, 0,
];

// The reader: how many blocks, how many words are lent, and k: at its edges, with words cut short, with no blocks.
const READS: [[u16; 3]; 6] = [
    [2, 36, 0],
    [2, 36, 1],
    [2, 36, 2],
    [2, 36, 3],
    [2, 35, 3],
    [0, 6, 1],
];

// A record's 15 words, by its fields.
fn fields(b: Block) -> [u16; 15] {
    [
        b.kind,
        b.n,
        b.top.class,
        b.top.number,
        b.middle.class,
        b.middle.number,
        b.inputs.top.code,
        b.inputs.top.number,
        b.inputs.middle.code,
        b.inputs.middle.number,
        b.inputs.bottom.code,
        b.inputs.bottom.number,
        b.coils.top,
        b.coils.middle,
        b.coils.bottom,
    ]
}

// The record of block k, or the refusal.
fn read(rt: &impl Print, words: &[u16], k: u16) -> io::Result<()> {
    match reader::record_of(words, k as usize) {
        Ok(block) => print!(rt; ": record{}", Numbers(&fields(block))),
        Err(refusal) => print!(rt; "{}", Answer(Err(refusal))),
    }
}

// A record written into the words of a network's one block, what the writer answers, and the record read back.
fn round(rt: &impl Print, sizes: Sizes, words: &mut [u16], row: &[u16; 15]) -> io::Result<()>
    requires { 15 ≤ length words.old }
{
    let start = words.len() - 15;
    let buffer = &mut words[start..];
    let answer = writer::write_record(sizes, 1, block_at(row, 0), buffer);
    print!(rt;
        "{}{} buffer{}",
        Numbers(row),
        Answer(answer),
        Numbers(buffer)
    )?;
    read(rt, words, 1)
}

pub(crate) fn rounds(rt: &impl Print) -> io::Result<()> {
    for row in &RECORDS {
        let mut words = [0; 21];
        words[..6].copy_from_slice(&[4, 32, 16, 96, 820, 1]);
        print!(rt; "\nrecord")?;
        round(rt, AREAS, &mut words, row)?;
    }
    // The same with the level among the words.
    for (level, row) in &RECORDS_AT {
        let mut words = [0; 22];
        words[..7].copy_from_slice(&[5, 32, 16, 96, 820, *level, 1]);
        print!(rt; "\nrecord at level {level}")?;
        let sizes = Sizes {
            level: *level,
            ..AREAS
        };
        round(rt, sizes, &mut words, row)?;
    }
    Ok(())
}

pub(crate) fn writer(rt: &impl Print) -> io::Result<()> {
    for case in WRITES {
        let [coils, level, k, lent, pointer, code, number] = case;
        let sizes = Sizes {
            coils,
            discretes: 0,
            inputs: 0,
            holding: 3,
            level,
        };
        let block = block_at(
            &[5, 1, 4, 1, 4, pointer, code, number, 0, 0, 0, 0, 0, 0, 0],
            0,
        );
        let mut buffer = [7; 16];
        let lent = buffer.len().min(lent as usize);
        let answer = writer::write_record(sizes, k as usize, block, &mut buffer[..lent]);
        print!(rt;
            "\nwriter{}{} buffer{}",
            Numbers(&case),
            Answer(answer),
            Numbers(&buffer[..lent])
        )?;
    }
    Ok(())
}

pub(crate) fn reader(rt: &impl Print) -> io::Result<()> {
    for case in READS {
        let [blocks, end, k] = case;
        let mut words = WORDS;
        words[5] = blocks;
        print!(rt; "\nreader{}", Numbers(&case))?;
        read(rt, front(&words, end), k)?;
    }
    Ok(())
}
