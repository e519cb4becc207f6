// The kinds with a pointer: CMPR, MBIT and SENS.
//
// Words are given by the index of the first, counted from 0, and their number. No call asks anything of its caller. A
// length that the kind does not take is refused with `Fault::Length`, a run or the pointer's register outside the table
// with `Fault::Operand`, both at place 0, and then nothing changes.
#![tactic(auto)]

mod cmpr;
mod mbit;
mod place;
mod register;
mod sens;
mod single;

pub use cmpr::compare;
pub use mbit::modify;
pub use place::Place;
pub use sens::sense;
