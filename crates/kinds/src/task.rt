// A block's work with the indexes of its words worked out.
ghost use Rattle.std.specs.Prelude.{◌≡◌};
ghost use Rattle.blocks.specs.Answer.{worked};
ghost use Rattle.kinds.specs.Tasks.{task_answer, task_table};

use crate::whole::{logic, rotate};
use blocks::{Outputs, Power};
use matrix::Operation;
use pointed::{Place, compare, modify, sense};
use verdict::{Fault, Refusal};

/// What a block does, with the indexes of its first words.
#[derive(Clone, Copy, Debug, PartialEq, Eq)]
pub enum Work {
    Combine {
        operation: Operation,
        source: u32,
        destination: u32,
    },
    Compare {
        source: u32,
        pointer: u32,
    },
    Modify {
        pointer: Place,
        matrix: u32,
    },
    Sense {
        pointer: Place,
        matrix: u32,
    },
    Rotate {
        source: u32,
        destination: u32,
    },
    /// A block of no kind, which is refused.
    Unknown,
}

/// The work on n words. It is refused as its block is, and then nothing changes.
//
// For speed it is inlined into a run's visit of a block.
#[inline(always)]
pub fn perform(table: &mut [u16], work: &Work, n: u16, on: Power) -> Result<Outputs, Refusal>
    ensures answer { worked result ≡ task_answer work.now n table.old on }
    ensures table { table.new ≡ task_table work.now n table.old on }
{
    let n = n as usize;
    match work {
        Work::Combine {
            operation,
            source,
            destination,
        } => {
            let s = *source as usize;
            let d = *destination as usize;
            // For speed each arm hands on the operation that it matched, so that each has a loop of its own and no word
            // asks which it is.
            match operation {
                Operation::And => logic(table, Operation::And, s, d, n, on),
                Operation::Or => logic(table, Operation::Or, s, d, n, on),
                Operation::Xor => logic(table, Operation::Xor, s, d, n, on),
                Operation::Comp => logic(table, Operation::Comp, s, d, n, on),
            }
        }
        Work::Compare { source, pointer } => compare(
            table,
            None,
            *source as usize,
            *pointer as usize,
            n,
            on,
        ),
        Work::Modify { pointer, matrix } => modify(table, pointer, *matrix as usize, n, on),
        Work::Sense { pointer, matrix } => sense(table, pointer, *matrix as usize, n, on),
        Work::Rotate {
            source,
            destination,
        } => rotate(table, *source as usize, *destination as usize, n, on),
        Work::Unknown => Err(Fault::Kind.at(0)),
    }
}
