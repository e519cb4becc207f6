// The bench file: areas and blocks, as a network has them, then the image, then the run; the verdict on it, and the
// start of its run on a lent table.
//
// Every call takes any words. `rest_in` tells what they spell; the others accept them, or refuse them with a fault and
// a place and change nothing.
#![tactic(auto)]

mod checker;
mod starting;

pub use checker::{OpenedFile, Rest, check, rest_in};
pub use starting::start;
