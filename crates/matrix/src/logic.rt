// AND, OR, XOR and COMP over the matrices of a table.
ghost use Rattle.std.specs.Prelude.{◌≡◌, ◌+◌, ◌≤◌, not, ◌&&◌, ◌||◌, length};
ghost use Rattle.std.specs.Bool.{xor};
ghost use Rattle.bits.specs.Bit.{of, word_with};
ghost use Rattle.verdict.specs.Verdict.{numbered, said_by};
ghost use Rattle.matrix.specs.Inner.{combined_word, merged_at, Rewritten};
ghost use Rattle.matrix.specs.Logic.{combine_verdict, combine_table};

use crate::merge::{Merge, merge_down, merge_up};
use bits::LONGEST_WHOLE;
use runs::fault;
use verdict::Refusal;

/// An operation on a bit of the source and the destination's bit at its position.
#[derive(Clone, Copy, Debug, PartialEq, Eq)]
pub enum Operation {
    And,
    Or,
    Xor,
    Comp,
}

// Each operation on a word of the source and the destination's word at its place.
struct And;

struct Or;

struct Xor;

struct Comp;

impl Merge for And {
    ghost word = { λ s d. word_with (λ p. of s p && of d p) };

    fn merged(s: u16, d: u16) -> u16 {
        bits::and_words(s, d)
    }
}

impl Merge for Or {
    ghost word = { λ s d. word_with (λ p. of s p || of d p) };

    fn merged(s: u16, d: u16) -> u16 {
        bits::or_words(s, d)
    }
}

impl Merge for Xor {
    ghost word = { λ s d. word_with (λ p. xor (of s p) (of d p)) };

    fn merged(s: u16, d: u16) -> u16 {
        bits::xor_words(s, d)
    }
}

impl Merge for Comp {
    ghost word = { λ s d. word_with (λ p. not (of s p)) };

    fn merged(s: u16, _d: u16) -> u16 {
        bits::complement(s)
    }
}

// The n words from d on become those of the words from s on and themselves: the last ones first where d is after s.
// `neighbours` of `shift.rt` chooses likewise for pairs, but is a call, where this is compiled in; each has wrong
// orders of its own that are refused.
#[inline(always)]
fn merge<M: Merge>(table: &mut [u16], s: usize, d: usize, n: usize)
    requires { (s + n ≤ length table.old) × (d + n ≤ length table.old) }
    ensures { Rewritten table.old (merged_at M.word table.old s d d) d (d + n) table.new }
{
    if s < d {
        merge_down::<M>(table, s, d, d, n)
    } else {
        merge_up::<M>(table, s, d, d, n)
    }
}

// The operation is chosen once, outside the loops.
#[tactic(auto, unfolding(crate::specs::Logic::combined))]
#[inline(always)]
fn operate(table: &mut [u16], operation: Operation, s: usize, d: usize, n: usize)
    requires { (s + n ≤ length table.old) × (d + n ≤ length table.old) }
    ensures { Rewritten table.old (merged_at (combined_word operation) table.old s d d) d (d + n) table.new }
{
    match operation {
        Operation::And => merge::<And>(table, s, d, n),
        Operation::Or => merge::<Or>(table, s, d, n),
        Operation::Xor => merge::<Xor>(table, s, d, n),
        Operation::Comp => merge::<Comp>(table, s, d, n),
    }
}

/// The destination's n words from d on become the operation on them and the n words of the source from s on: the last
/// ones first where the destination starts after the source.
#[tactic(auto, using(crate::proofs::Combining::combining), unfolding(crate::specs::Logic::combine_table))]
#[inline(always)]
pub fn combine(
    table: &mut [u16],
    operation: Operation,
    s: usize,
    d: usize,
    n: usize,
) -> Result<(), Refusal>
    ensures answer { numbered result ≡ said_by (combine_verdict (length table.old) s d n) tt }
    ensures table { table.new ≡ combine_table operation table.old s d n }
{
    fault(LONGEST_WHOLE, table.len(), n, s, d)?;
    operate(table, operation, s, d, n);
    Ok(())
}
