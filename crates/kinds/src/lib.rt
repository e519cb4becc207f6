// The work of a block by its kind.
//
// A block is given as its record and the indexes of its nodes' first words, counted from 0. No call asks anything of
// its caller. A kind that is none of the eight is refused with `Fault::Kind`, a length that the kind does not take with
// `Fault::Length`, a run or a pointer's register outside the table with `Fault::Operand`, all at place 0, and then
// nothing changes.
#![tactic(auto)]

mod block;
mod task;
mod whole;

pub use block::work;
pub use pointed::Place;
pub use task::{Work, perform};
