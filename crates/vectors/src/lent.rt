// A scan with less or more lent than its network asks for: refusal 12, after the network's own.
use crate::print::{Answer, Numbers};
use crate::words::front;
use std::io;

// Three holding registers; CMPR of 40001 with 40003, whose pointer is 40002; a word more.
const WORDS: [u16; 22] = [
    4, 0, 0, 0, 3, 1, 5, 1, 4, 1, 4, 2, 1, 0, 0, 0, 0, 0, 0, 0, 0, 0,
];

// How many blocks, the length of the first, and how many words of the network, words of the table and outputs are lent.
const CASES: [[u16; 5]; 11] = [
    // All that is asked for; entries after the count stay.
    [1, 1, 21, 3, 1],
    [1, 1, 21, 3, 3],
    // A table that is a word short, a word long, and none; no outputs.
    [1, 1, 21, 2, 1],
    [1, 1, 21, 4, 1],
    [1, 1, 21, 0, 1],
    [1, 1, 21, 3, 0],
    // No table and no outputs for length 0; no outputs for no blocks.
    [1, 0, 21, 0, 0],
    [0, 1, 6, 3, 0],
    // A word left over, with outputs and without; the last word missing.
    [1, 1, 22, 3, 1],
    [1, 1, 22, 3, 0],
    [1, 1, 20, 3, 1],
];

// One scan of each case, and what it leaves of what it is lent. The table is 0x8001 and zeros before the scan, the
// outputs 6 each, which no scan leaves: middle and bottom on, and top off.
pub(crate) fn all(rt: &impl Print) -> io::Result<()> {
    for case in CASES {
        let [blocks, n, end, size, room] = case;
        let mut words = WORDS;
        words[5] = blocks;
        words[7] = n;
        let mut table = [0x8001, 0, 0, 0];
        let size = table.len().min(size as usize);
        let mut outputs = [6; 3];
        let room = outputs.len().min(room as usize);
        let answer = scan::scan_packed(
            front(&words, end),
            &mut table[..size],
            &mut outputs[..room],
        );
        print!(rt; "\nlent{}{}", Numbers(&case), Answer(answer))?;
        print!(rt;
            " outputs{} table{}",
            Numbers(&outputs[..room]),
            Numbers(&table[..size])
        )?;
    }
    Ok(())
}
