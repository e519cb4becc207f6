// Networks in words: the checker, and the record of block k.
//
// Every call takes any words. It does its work, or it refuses with a fault and a place.
#![tactic(auto)]

mod checker;
mod reading;

pub use areas::sizes_in;
pub use checker::{MOST_BLOCKS, Opened, block_count, check, end, leading, opening};
pub use reading::record_at;
