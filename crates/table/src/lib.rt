// The table: the sizes of its four areas and the level, where a reference stands in it, and the part of it that is a
// matrix.
//
// Every call takes any sizes, any reference and any table.
#![tactic(auto)]

mod area;
mod part;
mod sizes;

pub use area::{Area, NoArea};
pub use part::{matrix, start, total};
pub use sizes::{
    MOST_COILS, MOST_DISCRETES, MOST_HOLDING, MOST_INPUTS, Sizes, allowed, reference_fault,
};
