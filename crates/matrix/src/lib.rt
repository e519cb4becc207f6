// Matrices in one lent table of words: the work of the blocks on their words, but for the search.
//
// A run is given as the index of its first word, counted from 0, and its length in words. Runs may overlap in any
// way: what a call leaves goes by the words as they were before it. No call asks anything of its caller. A length
// that the call does not take is refused as `Fault::Length`, a run outside the table or a position outside the matrix
// as `Fault::Operand`, both at place 0, and then nothing changes.
#![tactic(auto)]

mod logic;
mod merge;
mod shift;
mod single;

pub use logic::{Operation, combine};
pub use shift::move_one;
pub use single::{put_bit, read_bit};
