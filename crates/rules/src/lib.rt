// What a record must be: the rules for the eight kinds, the refusal that each of its 15 words earns, and the verdict on
// all of them.
//
// Every call takes any record, any sizes and any index, any number for a kind, a class or a code.
#![tactic(auto)]

mod codes;
mod fault;
mod rules;

pub use codes::{Class, Kind, Source, Unknown};
pub use fault::judged;
// Promised to callers, too, though no crate here calls them: the row of a kind, and whether a node may have a class.
pub use rules::{Classes, Rule, rule_of};
