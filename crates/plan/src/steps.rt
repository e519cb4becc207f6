// The step of one block: its work, where its inputs look, the spots of its coils.
ghost use Rattle.std.specs.Prelude.{◌≡◌};
ghost use Rattle.table.specs.Table.{start_of};
ghost use Rattle.kinds.specs.declared.task.Work.TheVariants.{Combine};
ghost use Rattle.plan.specs.declared.Look.TheVariants.{Contact, Earlier};
ghost use Rattle.plan.specs.Plan.{mask_of, look_of, spot_of, place_of, work_of, step_of};

use crate::{Look, Output, Spot, Step};
use kinds::{Place, Work};
use matrix::Operation;
use record::{Block, Input, Node};
use rules::{Kind, Source};
use table::Sizes;

// The bit in its word of the discrete that so many stand before.
fn mask_of(i: u32) -> u16
    ensures { result ≡ mask_of i }
{
    1u16 << (15 - i % 16)
}

// A contact that passes power where its masked word is the wanted one: the mask where it is open, 0 where it is closed.
fn contact(at: u32, mask: u16, wanted: u16) -> Look
    ensures { result ≡ Contact at mask wanted }
{
    Look::Contact { at, mask, wanted }
}

// An output of the block that so many are before.
fn earlier(block: u16, output: Output) -> Look
    ensures { result ≡ Earlier block output }
{
    Look::Earlier { block, output }
}

// Where an input looks. A code that stands for nothing is read as that of a bottom output.
#[tactic(auto, unfolding(crate::specs::Plan::look_of))]
fn look_of(sizes: Sizes, input: Input) -> Look
    ensures { result ≡ look_of sizes input }
{
    let before = input.number.saturating_sub(1);
    let i = before as u32;
    let mask = mask_of(i);
    let coil = i / 16;
    let discrete = sizes.coils as u32 + coil;
    match Source::try_from(input.code).unwrap_or(Source::BottomOutput) {
        Source::Never => Look::Fixed(false),
        Source::Always => Look::Fixed(true),
        Source::OpenCoil => contact(coil, mask, mask),
        Source::ClosedCoil => contact(coil, mask, 0),
        Source::OpenDiscrete => contact(discrete, mask, mask),
        Source::ClosedDiscrete => contact(discrete, mask, 0),
        Source::TopOutput => earlier(before, Output::Top),
        Source::MiddleOutput => earlier(before, Output::Middle),
        Source::BottomOutput => earlier(before, Output::Bottom),
    }
}

// The spot of a coil, if it has one.
#[tactic(auto, unfolding(crate::specs::Plan::spot_of))]
fn spot_of(number: u16) -> Option<Spot>
    ensures { result ≡ spot_of number }
{
    let i = number.checked_sub(1)? as u32;
    Some(Spot {
        at: i / 16,
        mask: mask_of(i),
    })
}

// The index of a node's first word in the table.
#[tactic(auto, using(crate::proofs::Starts::start_small))]
fn start_of(sizes: Sizes, node: Node) -> u32
    ensures { result ≡ start_of sizes node.class node.number }
{
    table::start(sizes, node.class, node.number) as u32
}

// A pointer's place.
#[tactic(auto, unfolding(crate::specs::Plan::place_of))]
fn place_of(sizes: Sizes, node: Node) -> Place
    ensures { result ≡ place_of sizes node }
{
    Place::of(node, table::start(sizes, node.class, node.number))
}

// AND, OR, XOR or COMP.
fn combine(operation: Operation, source: u32, destination: u32) -> Work
    ensures { result ≡ Combine operation source destination }
{
    Work::Combine {
        operation,
        source,
        destination,
    }
}

// A block's work. That of a number that is of no kind is refused.
#[tactic(auto, unfolding(crate::specs::Plan::work_of))]
fn work_of(sizes: Sizes, block: Block) -> Work
    ensures { result ≡ work_of sizes block }
{
    let Ok(kind) = Kind::try_from(block.kind) else {
        return Work::Unknown;
    };
    let source = start_of(sizes, block.top);
    let destination = start_of(sizes, block.middle);
    match kind {
        Kind::And => combine(Operation::And, source, destination),
        Kind::Or => combine(Operation::Or, source, destination),
        Kind::Xor => combine(Operation::Xor, source, destination),
        Kind::Comp => combine(Operation::Comp, source, destination),
        Kind::Cmpr => Work::Compare {
            source,
            pointer: destination,
        },
        Kind::Mbit => Work::Modify {
            pointer: place_of(sizes, block.top),
            matrix: destination,
        },
        Kind::Sens => Work::Sense {
            pointer: place_of(sizes, block.top),
            matrix: destination,
        },
        Kind::Brot => Work::Rotate {
            source,
            destination,
        },
    }
}

// The step of a block.
#[tactic(auto, unfolding(crate::specs::Plan::step_of))]
pub(crate) fn step_of(sizes: Sizes, block: Block) -> Step
    ensures { result ≡ step_of sizes block }
{
    let inputs = block.inputs;
    let coils = block.coils;
    Step {
        work: work_of(sizes, block),
        n: block.n,
        inputs: [
            look_of(sizes, inputs.top),
            look_of(sizes, inputs.middle),
            look_of(sizes, inputs.bottom),
        ],
        coils: [
            spot_of(coils.top),
            spot_of(coils.middle),
            spot_of(coils.bottom),
        ],
    }
}
