// Visits one after the other, each with its line put into a lent buffer.
ghost use Rattle.std.specs.Prelude.{◌≡◌, ℕ, ◌+◌, ◌-◌, ◌/◌, ◌≤◌, ◌<◌, length, get_or};
ghost use Rattle.network.specs.Network.{Network};
ghost use Rattle.network.specs.Check.{most_blocks};
ghost use Rattle.file.specs.File.{file_in};
ghost use Rattle.text.specs.Text.{label_of, longest_line};
ghost use Rattle.run.specs.Bench.{visit_count};
ghost use Rattle.run.specs.Inner.{turn_at, Turned, Turnable, Lined, InScan, Scannable, ScanMade, Ready, Made};

use crate::visit::{shown, visit};
use file::OpenedFile;
use kinds::Work;
use lines::{put_compare_line, put_plain_line, put_pointed_line};
use network::MOST_BLOCKS;
use plan::{NO_STEP, Step, put_plan};
use text::{LONGEST_LINE, label};

/// The bytes that the line of a visit may take in a run of at most 1000 scans.
pub const VISIT_ROOM: usize = 26;

// What the visits of a call go by: how many words the table has, the steps of the blocks, and their labels, which lie
// apart because a plan knows of no lines.
#[derive(Clone, Copy)]
struct Course<'a> {
    size: usize,
    plan: &'a [Step],
    labels: &'a [u64],
}

// Whose turn it is: the scan, and how many of its blocks were visited.
#[derive(Clone, Copy)]
struct Turn {
    scan: u16,
    block: usize,
}

// That of a visit, by its number.
fn turn_of(visit: usize, count: usize) -> Turn
    requires { (0 < count) × (visit / count ≤ 65534) }
    ensures { result ≡ turn_at visit count }
{
    Turn {
        scan: (visit / count) as u16 + 1,
        block: visit % count,
    }
}

// The labels of so many blocks, put by their index: nothing is known of what a loop over `iter_mut` leaves.
fn labels_of(count: usize) -> [u64; MOST_BLOCKS]
    requires { count ≤ most_blocks }
    ensures { (length result ≡ most_blocks) × ((k : ℕ) → k < count → get_or result k 0 ≡ label_of (k + 1)) }
{
    let mut labels = [0u64; MOST_BLOCKS];
    for k in 0..count {
        labels[k] = label(k as u16 + 1);
    }
    labels
}

// The visit of the block after the first k, and its line from a place on, in the scan of a label.
fn visit_and_put(
    course: &Course,
    label: u64,
    k: usize,
    state: &mut [u16],
    text: &mut [u8],
    at: usize,
) -> usize
    requires { Turnable state.old course.now label k text.old at }
    ensures { (net : Network) (scan : ℕ) → Turned net scan state.old course.now label k →
        Lined net scan k state.old text.old at result state.new text.new }
{
    let step = &course.plan[k];
    let out = visit(state, course.size, step, k);
    let block = course.labels[k];
    match &step.work {
        Work::Compare { pointer, .. } => put_compare_line(
            text,
            at,
            label,
            block,
            out,
            state[*pointer as usize],
        ),
        Work::Modify { pointer, .. } | Work::Sense { pointer, .. } => put_pointed_line(
            text,
            at,
            label,
            block,
            out,
            shown(state, pointer),
        ),
        Work::Combine { .. } | Work::Rotate { .. } | Work::Unknown => {
            put_plain_line(text, at, label, block, out)
        }
    }
}

// The visits of a scan's blocks from the one whose turn it is, up to another.
fn put_blocks(
    course: &Course,
    turn: Turn,
    end: usize,
    state: &mut [u16],
    text: &mut [u8],
    at: usize,
) -> usize
    requires { Scannable state.old course.now turn end text.old at }
    ensures { (net : Network) → InScan net turn.scan state.old course.now turn.block end →
        ScanMade net turn.scan turn.block (end - turn.block) state.old text.old at result state.new text.new }
{
    let label = label(turn.scan);
    let mut next = at;
    for k in turn.block..end {
        next = visit_and_put(course, label, k, state, text, next);
    }
    next
}

// Where visits stopped: the visit to go on from, and the place after the last line.
#[derive(Clone, Copy)]
pub(crate) struct Reached {
    pub(crate) visit: usize,
    pub(crate) at: usize,
}

// The file's visits from one on: as long as a line surely fits and one more behind it, scan by scan.
pub(crate) fn put_visits(
    words: &[u16],
    file: &OpenedFile,
    state: &mut [u16],
    from: usize,
    text: &mut [u8],
    at: usize,
) -> Reached
    requires { Ready words.now file.now state.old from × (at + longest_line ≤ length text.old) }
    ensures { Made (file_in words.now).network state.old from (visit_count (file_in words.now)) text.old at
        result state.new text.new }
{
    let count = file.network.count() as usize;
    let all = file.scans as usize * count;
    if all <= from {
        return Reached { visit: from, at };
    }
    let mut plan = [NO_STEP; MOST_BLOCKS];
    put_plan(words, file.network, &mut plan);
    let labels = labels_of(count);
    let course = Course {
        size: file.words,
        plan: &plan,
        labels: &labels,
    };
    let room = text.len() - LONGEST_LINE;
    let mut visit = from;
    let mut next = at;
    while visit < all && VISIT_ROOM <= room - next {
        let many = ((room - next) / VISIT_ROOM).min(all - visit);
        let turn = turn_of(visit, count);
        let end = (turn.block + many).min(count);
        next = put_blocks(&course, turn, end, state, text, next);
        visit += end - turn.block;
    }
    Reached { visit, at: next }
}
