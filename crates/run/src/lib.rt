// A run of a file's visits, some at a time: each block is visited and its line put at once.
//
// The call takes any words, any state and any buffer. A state is the table and after it a word for each block, its
// outputs when it was last visited, packed. The call does its work, or it refuses and changes nothing. It may stop
// between any two blocks, and it says where to go on.
#![tactic(auto)]

mod visit;
mod visits;

ghost use Rattle.std.specs.Prelude.{◌≡◌, cond, [], ◌+◌, ◌≤◌, eqb, length};
ghost use Rattle.text.specs.Text.{longest_line, head_line, end_line};
ghost use Rattle.text.specs.Inner.{Put};
ghost use Rattle.run.specs.Page.{went_from, run_went, run_state, run_text};
ghost use Rattle.run.specs.Inner.{Taken, Done};

use crate::visits::put_visits;
use ends::{put_end, put_head};
use file::OpenedFile;
use text::LONGEST_LINE;
use verdict::{Fault, Refusal};
pub use visits::VISIT_ROOM;

/// Where a call stopped: the visit to go on from, which the next call takes as it is, and how many bytes were put into
/// the buffer. Past the last visit the run is at its end.
#[derive(Clone, Copy, Debug, PartialEq, Eq)]
pub struct Page {
    pub next: usize,
    pub bytes: usize,
}

// The least room of a call: for the first line, one visit, the last line.
const LEAST_ROOM: usize = 2 * LONGEST_LINE + VISIT_ROOM;

// The first line, before visit 0.
fn put_first(text: &mut [u8], from: usize, count: u16, table: u16) -> usize
    requires { longest_line ≤ length text.old }
    ensures { Put longest_line text.old 0 (cond (eqb from 0) (head_line count table) []) result text.new }
{
    if from != 0 {
        return 0;
    }
    put_head(text, count, table)
}

// The last line, after the last visit.
fn put_last(text: &mut [u8], at: usize, next: usize, visits: usize, scans: u16) -> usize
    requires { at + longest_line ≤ length text.old }
    ensures { Put longest_line text.old at (cond (eqb next visits) (end_line scans) []) result text.new }
{
    if next != visits {
        return at;
    }
    put_end(text, at, scans)
}

// The visits from one on of a file that was checked before, as many as surely fit, and their lines at the front of the
// buffer, with the first line and the last where they stand.
fn put_page(
    words: &[u16],
    file: &OpenedFile,
    state: &mut [u16],
    from: usize,
    text: &mut [u8],
) -> Page
    requires { Taken words.now file.now state.old from text.old }
    ensures { Done words.now state.old from text.old result state.new text.new }
{
    let count = file.network.count();
    let visits = file.scans as usize * count as usize;
    let at = put_first(text, from, count, file.words as u16);
    let reached = put_visits(words, file, state, from, text, at);
    let visit = reached.visit;
    let bytes = put_last(text, reached.at, visit, visits, file.scans);
    let next = if visit == visits { visit + 1 } else { visit };
    Page { next, bytes }
}

/// As many of the file's visits as surely fit, from visit `from` on, on a state: their lines go to the front of the
/// buffer, with the first line before visit 0 and the last line after the last visit. Refused are words that are no
/// file, and then with a fault of the call a state that has not the words of the file's table and one for each block, a
/// visit past the last, and a buffer that has not room for the first line, a visit's and the last.
#[tactic(auto, using(crate::proofs::Running::bad_file, crate::proofs::Running::is_taken))]
pub fn run(words: &[u16], state: &mut [u16], from: usize, text: &mut [u8]) -> Result<Page, Refusal>
    ensures answer { went_from from result ≡ run_went words.now state.old from (length text.old) }
    ensures state { state.new ≡ run_state words.now state.old from (length text.old) }
    ensures text { text.new ≡ run_text words.now state.old from text.old }
{
    let file = file::check(words, false)?;
    let count = file.network.count() as usize;
    let visits = file.scans as usize * count;
    if state.len() != file.words + count || visits < from || text.len() < LEAST_ROOM {
        return Err(Fault::Call.at(0));
    }
    Ok(put_page(words, &file, state, from, text))
}
