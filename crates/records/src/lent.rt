// The two calls whose bodies hold what a caller lends: a reader over lent words, and a list of records lent to a scan.
ghost use Rattle.std.specs.Prelude.{◌≡◌, length};
ghost use Rattle.verdict.specs.Verdict.{numbered, said_by};
ghost use Rattle.network.specs.Network.{block_count};
ghost use Rattle.network.specs.Check.{network_in, opened, read};
ghost use Rattle.scan.specs.Scan.{scan_verdict, scan_table, scan_records};

use network::{Opened, block_count};
use outputs::Outputs;
use reader::Reader;
use record::Block;
use verdict::Refusal;

// What a reader says of the words that it was opened on, how many blocks they spell, and what it says of block k.
#[derive(Clone, Copy)]
pub(crate) struct Asked {
    pub opened: Result<Opened, Refusal>,
    pub count: u16,
    pub read: Result<Block, Refusal>,
}

// A reader is opened on the words and asked twice.
#[tactic(auto, using(reader::proofs::Reading::gives_record))]
pub(crate) fn ask(words: &[u16], k: usize) -> Asked
    ensures opened { numbered result.opened ≡ opened words.now }
    ensures count { result.count ≡ block_count (network_in words.now) }
    ensures read { numbered result.read ≡ read words.now k }
{
    let reader = Reader::open(words);
    Asked {
        opened: reader.opened(),
        count: block_count(words),
        read: reader.record(k),
    }
}

// What a scan answers, and the list of records as the scan left it.
#[derive(Clone, Copy)]
pub(crate) struct Scanned {
    pub answer: Result<(), Refusal>,
    pub list: [Outputs; 5],
}

// One scan, which is lent a list of records.
pub(crate) fn lend(words: &[u16], table: &mut [u16], before: [Outputs; 5]) -> Scanned
    ensures answer { numbered result.answer ≡ said_by (scan_verdict words.now (length table.old) 5) tt }
    ensures table { table.new ≡ scan_table words.now table.old 5 }
    ensures list { result.list ≡ scan_records words.now table.old before }
{
    let mut list = before;
    let answer = outputs::scan(words, table, &mut list);
    Scanned { answer, list }
}
