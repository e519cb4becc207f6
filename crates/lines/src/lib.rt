// The line of a block, put into a lent buffer.
//
// Each public call takes any buffer, any place in it, any machine words as the labels of scan and block
// (`text::label`), any outputs and any pointer, and answers the place after what it put. Where fewer bytes than the
// longest line takes are left from the place on, it puts nothing. The kind of the block says which call: one without a
// pointer, one with a pointer, or a compare, which alone counts.
#![tactic(auto)]

mod put;
mod tail;

ghost use Rattle.std.specs.Prelude.{◌+◌, ◌≤◌, ◌≡◌, ◌++◌, [], ◌∷◌, length};
ghost use Rattle.text.specs.Text.{decimal, output_fields, no_pointer, uncounted, label_text, labelled_line, place_after, laid};
ghost use Rattle.text.specs.Inner.{Put, Over};
ghost use Rattle.lines.specs.Tail.{tailed_line};

use crate::put::put_bytes;
use crate::tail::{Tail, put_tail};
use blocks::Outputs;
use text::{HIGHEST, line_fits};

// The text of a label, and spare bytes after it.
fn put_label(text: &mut [u8], at: usize, label: u64) -> usize
    requires { at + 8 ≤ length text.old }
    ensures { Over text.old at (label_text label) result text.new }
{
    put_bytes(text, at, label.to_le_bytes());
    at + (label / HIGHEST % 8) as usize
}

// Top, middle and bottom, each with a space after it, and two spare bytes: top is worth 1, middle 2, bottom 4. With
// each byte worked out, 1000 scans of 128 blocks of all kinds take 23.3 million instructions, in place of 22.0.
static OUTPUT_FIELDS: [[u8; 8]; 8] = [
    *b"0 0 0 \0\0",
    *b"1 0 0 \0\0",
    *b"0 1 0 \0\0",
    *b"1 1 0 \0\0",
    *b"0 0 1 \0\0",
    *b"1 0 1 \0\0",
    *b"0 1 1 \0\0",
    *b"1 1 1 \0\0",
];

// The fields of these outputs, looked up.
fn output_fields(out: Outputs) -> [u8; 8]
    ensures { result ≡ output_fields out ++ 0 ∷ 0 ∷ [] }
{
    OUTPUT_FIELDS[out.top as usize + 2 * out.middle as usize + 4 * out.bottom as usize]
}

// The labels of scan and block, top, middle and bottom, and two spare bytes after them.
fn put_front(text: &mut [u8], at: usize, scan: u64, block: u64, out: Outputs) -> usize
    requires { at + 22 ≤ length text.old }
    ensures { Put 22 text.old at (label_text scan ++ label_text block ++ output_fields out ++ 0 ∷ 0 ∷ [])
        (result + 2) text.new }
{
    let next = put_label(text, at, scan);
    let next = put_label(text, next, block);
    put_bytes(text, next, output_fields(out));
    next + 6
}

// A line with this tail, of which each call keeps its own arm.
#[inline(always)]
fn put_line(text: &mut [u8], at: usize, scan: u64, block: u64, out: Outputs, tail: Tail) -> usize
    ensures answer { result ≡ place_after at (tailed_line scan block out tail) text.old }
    ensures text { text.new ≡ laid at (tailed_line scan block out tail) text.old }
{
    if !line_fits(text.len(), at) {
        return at;
    }
    let next = put_front(text, at, scan, block, out);
    put_tail(text, next, tail, out.count)
}

/// The line of a block whose kind has no pointer.
#[tactic(auto, unfolding(text::specs::Text::labelled_line, crate::specs::Tail::tail_text))]
pub fn put_plain_line(text: &mut [u8], at: usize, scan: u64, block: u64, out: Outputs) -> usize
    ensures answer { result ≡ place_after at (labelled_line scan block (uncounted out) no_pointer) text.old }
    ensures text { text.new ≡ laid at (labelled_line scan block (uncounted out) no_pointer) text.old }
{
    put_line(text, at, scan, block, out, Tail::Plain)
}

/// The line of a block whose kind has a pointer, but counts nothing.
#[tactic(auto, unfolding(text::specs::Text::labelled_line, crate::specs::Tail::tail_text))]
pub fn put_pointed_line(
    text: &mut [u8],
    at: usize,
    scan: u64,
    block: u64,
    out: Outputs,
    pointer: u16,
) -> usize
    ensures answer { result ≡ place_after at (labelled_line scan block (uncounted out) (decimal pointer)) text.old }
    ensures text { text.new ≡ laid at (labelled_line scan block (uncounted out) (decimal pointer)) text.old }
{
    put_line(text, at, scan, block, out, Tail::Pointed(pointer))
}

/// The line of a compare: its pointer, and how many bit pairs it examined.
#[tactic(auto, unfolding(text::specs::Text::labelled_line, crate::specs::Tail::tail_text))]
pub fn put_compare_line(
    text: &mut [u8],
    at: usize,
    scan: u64,
    block: u64,
    out: Outputs,
    pointer: u16,
) -> usize
    ensures answer { result ≡ place_after at (labelled_line scan block out (decimal pointer)) text.old }
    ensures text { text.new ≡ laid at (labelled_line scan block out (decimal pointer)) text.old }
{
    put_line(text, at, scan, block, out, Tail::Compared(pointer))
}
