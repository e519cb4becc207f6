// A block's work, by its kind.
ghost use Rattle.std.specs.Prelude.{◌≡◌};
ghost use Rattle.rules.specs.Codes.{kind_number};
ghost use Rattle.blocks.specs.Kind.{kind_of};
ghost use Rattle.blocks.specs.Answer.{worked};
ghost use Rattle.kinds.specs.Call.{work_answer, work_table};
ghost use Rattle.kinds.specs.Inner.{constant_at, DoesAs};

use crate::whole::{logic, rotate};
use blocks::{Located, Outputs, Power};
use matrix::Operation;
use pointed::{Place, compare, modify, sense};
use record::Node;
use rules::{Class, Kind};
use verdict::{Fault, Refusal};

// The constant that a node gives, if it gives one.
fn constant_of(node: Node) -> Option<u16>
    ensures { result ≡ constant_at node }
{
    match Class::try_from(node.class) {
        Ok(Class::Constant) => Some(node.number),
        _ => None,
    }
}

// The work of a block of a kind, whatever number its record has for it.
#[tactic(auto, using(crate::proofs::Places::constant_or_register), unfolding(blocks::specs::Kind::kind_of, blocks::specs::View::seen_by, blocks::specs::Effect::effect_of, crate::specs::Call::kind_fault))]
fn work_of(table: &mut [u16], kind: Kind, one: Located, on: Power) -> Result<Outputs, Refusal>
    ensures { DoesAs (kind_of (kind_number kind)) one on table.old (worked result) table.new }
{
    let Located { block, top, middle } = one;
    let n = block.n as usize;
    match kind {
        Kind::And => logic(table, Operation::And, top, middle, n, on),
        Kind::Or => logic(table, Operation::Or, top, middle, n, on),
        Kind::Xor => logic(table, Operation::Xor, top, middle, n, on),
        Kind::Comp => logic(table, Operation::Comp, top, middle, n, on),
        Kind::Cmpr => compare(table, constant_of(block.middle), top, middle, n, on),
        Kind::Mbit => modify(table, &Place::of(block.top, top), middle, n, on),
        Kind::Sens => sense(table, &Place::of(block.top, top), middle, n, on),
        Kind::Brot => rotate(table, top, middle, n, on),
    }
}

/// The destination and the pointer are written as the kind's rule says; the answer is the outputs.
#[tactic(auto, using(crate::proofs::ByKind::no_answer, crate::proofs::ByKind::no_table))]
pub fn work(table: &mut [u16], one: Located, on: Power) -> Result<Outputs, Refusal>
    ensures answer { worked result ≡ work_answer one table.old on }
    ensures table { table.new ≡ work_table one table.old on }
{
    let Ok(kind) = Kind::try_from(one.block.kind) else {
        return Err(Fault::Kind.at(0));
    };
    work_of(table, kind, one, on)
}
