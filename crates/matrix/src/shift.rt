// A matrix moved by one position.
ghost use Rattle.std.specs.Prelude.{◌≡◌, cond, ◌+◌, ◌≤◌, length};
ghost use Rattle.bits.specs.Bit.{word_with};
ghost use Rattle.bits.specs.Word.{leftward, rightward};
ghost use Rattle.verdict.specs.Verdict.{numbered};
ghost use Rattle.matrix.specs.Inner.{merged_at, Rewritten};
ghost use Rattle.matrix.specs.Move.{move_said, move_table};

use crate::merge::{Merge, merge_down, merge_up};
use bits::LONGEST_WHOLE;
use runs::fault;
use verdict::Refusal;

// Two neighbours, of which the first is moved left or the second right.
struct Left;

struct Right;

impl Merge for Left {
    ghost word = { λ w after. word_with (leftward w after) };

    fn merged(w: u16, after: u16) -> u16 {
        bits::move_left(w, after)
    }
}

impl Merge for Right {
    ghost word = { λ before w. word_with (rightward before w) };

    fn merged(before: u16, w: u16) -> u16 {
        bits::move_right(before, w)
    }
}

// The word beyond an end of the matrix: with wrap the one at the other end, else 0.
fn beyond(wrap: bool, other: u16) -> u16
    ensures { result ≡ cond wrap other 0 }
{
    if wrap { other } else { 0 }
}

// The n words from `at` on become those of the n pairs of neighbours from s on: the last ones first where they start
// after s.
fn neighbours<M: Merge>(table: &mut [u16], s: usize, at: usize, n: usize)
    requires { (s + 1 + n ≤ length table.old) × (at + n ≤ length table.old) }
    ensures { Rewritten table.old (merged_at M.word table.old s (s + 1) at) at (at + n) table.new }
{
    if s < at {
        merge_down::<M>(table, s, s + 1, at, n)
    } else {
        merge_up::<M>(table, s, s + 1, at, n)
    }
}

/// The n words from s on, moved by one position, become the n words from d on; the answer is the bit that left. `left`:
/// to the left, else to the right; `wrap`: the bit that left enters at the other end, else 0 does. Two flags, as the
/// promise has them.
#[tactic(auto, using(crate::proofs::Shifting::shifting), unfolding(crate::specs::Move::move_table))]
pub fn move_one(
    table: &mut [u16],
    s: usize,
    d: usize,
    n: usize,
    left: bool,
    wrap: bool,
) -> Result<bool, Refusal>
    ensures answer { numbered result ≡ move_said left table.old s d n }
    ensures table { table.new ≡ move_table left wrap table.old s d n }
{
    fault(LONGEST_WHOLE, table.len(), n, s, d)?;
    let end = n - 1;
    let first = table[s];
    let last = table[s + end];
    if left {
        neighbours::<Left>(table, s, d, end);
        table[d + end] = bits::move_left(last, beyond(wrap, first));
        Ok(bits::bit_at(first, 1))
    } else {
        neighbours::<Right>(table, s, d + 1, end);
        table[d] = bits::move_right(beyond(wrap, last), first);
        Ok(bits::bit_at(last, 16))
    }
}
