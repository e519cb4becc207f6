// The lines that begin and end a run, and that of a refusal, put into a lent buffer.
//
// Each public call takes any buffer, any place in it and any numbers, and answers the place after what it put. Where
// fewer bytes than the longest line takes are left from the place on, it puts nothing.
#![tactic(auto)]

mod put;

ghost use Rattle.std.specs.Prelude.{◌≡◌};
ghost use Rattle.verdict.specs.Verdict.{verdict};
ghost use Rattle.text.specs.Text.{head_line, end_line, refusal_line, place_after, laid};

use crate::put::{put_bytes, put_field};
use text::line_fits;

/// The first line of a run, blocks and table words, at the front of the buffer.
pub fn put_head(text: &mut [u8], count: u16, table: u16) -> usize
    ensures answer { result ≡ place_after 0 (head_line count table) text.old }
    ensures text { text.new ≡ laid 0 (head_line count table) text.old }
{
    if !line_fits(text.len(), 0) {
        return 0;
    }
    let next = put_bytes(text, 0, b"blocks ");
    let next = put_field(text, next, count, b' ');
    let next = put_bytes(text, next, b"words ");
    put_field(text, next, table, b'\n')
}

/// The last line, the scans.
pub fn put_end(text: &mut [u8], at: usize, scans: u16) -> usize
    ensures answer { result ≡ place_after at (end_line scans) text.old }
    ensures text { text.new ≡ laid at (end_line scans) text.old }
{
    if !line_fits(text.len(), at) {
        return at;
    }
    let next = put_bytes(text, at, b"end ");
    put_field(text, next, scans, b'\n')
}

/// The one line of a refusal, its number and its place, at the front of the buffer. The place is a word itself: no file
/// that is read is refused further on.
pub fn put_refusal(text: &mut [u8], number: u16, place: u16) -> usize
    ensures answer { result ≡ place_after 0 (refusal_line (verdict number place)) text.old }
    ensures text { text.new ≡ laid 0 (refusal_line (verdict number place)) text.old }
{
    if !line_fits(text.len(), 0) {
        return 0;
    }
    let next = put_bytes(text, 0, b"refused ");
    let next = put_field(text, next, number, b' ');
    put_field(text, next, place, b'\n')
}
