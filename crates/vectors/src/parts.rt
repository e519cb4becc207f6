// The part of a table that is a matrix.
use crate::print::Numbers;
use crate::words::front;
use std::io;
use table::Sizes;

// The words of the four areas, the level, how many words of the table are lent, the class, the number, the length.
const CASES: [[u16; 9]; 34] = [
    // Two words of coils, one of discrete inputs, one input register, two holding registers.
    [2, 1, 1, 2, 1, 6, 0, 1, 2],
    [2, 1, 1, 2, 1, 6, 0, 1, 3],
    [2, 1, 1, 2, 1, 6, 0, 17, 1],
    [2, 1, 1, 2, 1, 6, 0, 16, 1],
    [2, 1, 1, 2, 1, 6, 0, 33, 1],
    [2, 1, 1, 2, 1, 6, 1, 1, 1],
    [2, 1, 1, 2, 1, 6, 1, 17, 1],
    [2, 1, 1, 2, 1, 6, 3, 1, 1],
    [2, 1, 1, 2, 1, 6, 4, 1, 2],
    [2, 1, 1, 2, 1, 6, 4, 2, 1],
    [2, 1, 1, 2, 1, 6, 4, 2, 2],
    [2, 1, 1, 2, 1, 6, 4, 0, 1],
    [2, 1, 1, 2, 1, 6, 4, 1, 0],
    [2, 1, 1, 2, 1, 6, 2, 1, 1],
    [2, 1, 1, 2, 1, 6, 9, 1, 1],
    [2, 1, 1, 2, 1, 7, 4, 1, 2],
    // The longest matrix of each level, levels that are none, and a table that is a word short.
    [32, 16, 96, 820, 1, 964, 4, 1, 255],
    [32, 16, 96, 820, 1, 964, 4, 566, 255],
    [32, 16, 96, 820, 1, 964, 4, 567, 255],
    [32, 16, 96, 820, 1, 964, 4, 1, 256],
    [32, 16, 96, 820, 2, 964, 4, 1, 256],
    [32, 16, 96, 820, 2, 964, 4, 1, 600],
    [32, 16, 96, 820, 2, 964, 4, 221, 600],
    [32, 16, 96, 820, 2, 964, 4, 222, 600],
    [32, 16, 96, 820, 2, 964, 4, 1, 601],
    [32, 16, 96, 820, 0, 964, 4, 1, 1],
    [32, 16, 96, 820, 3, 964, 4, 1, 1],
    [32, 16, 96, 820, 1, 963, 4, 1, 255],
    // Discretes alone, then input registers alone, at the limit and over it.
    [128, 0, 0, 0, 1, 128, 0, 2033, 1],
    [129, 0, 0, 0, 1, 129, 0, 2033, 1],
    [0, 128, 0, 0, 1, 128, 1, 2033, 1],
    [0, 129, 0, 0, 1, 129, 1, 2033, 1],
    [0, 0, 512, 0, 1, 512, 3, 512, 1],
    [0, 0, 513, 0, 1, 513, 3, 512, 1],
];

// 1 to 6 are the first words; where there are 820 holding registers, 1 to 6 are 40001, 40255, 40566, 40820, 40221 and
// 40600; 7 is every other word.
fn table() -> [u16; 964] {
    let mut table = [7; 964];
    table[..6].copy_from_slice(&[1, 2, 3, 4, 5, 6]);
    table[144] = 1;
    table[398] = 2;
    table[709] = 3;
    table[963] = 4;
    table[364] = 5;
    table[743] = 6;
    table
}

// The words of the part that is a case's matrix.
fn part(rt: &impl Print, case: [u16; 9]) -> io::Result<()> {
    let [
        coils,
        discretes,
        inputs,
        holding,
        level,
        lent,
        class,
        number,
        n,
    ] = case;
    let sizes = Sizes {
        coils,
        discretes,
        inputs,
        holding,
        level,
    };
    let table = table();
    let part = table::matrix(front(&table, lent), sizes, class, number, n);
    print!(rt; "\nmatrix{}:{}", Numbers(&case), Numbers(part))
}

pub(crate) fn all(rt: &impl Print) -> io::Result<()> {
    for case in CASES {
        part(rt, case)?;
    }
    Ok(())
}
