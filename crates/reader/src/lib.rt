// The reader: opened on lent words, it gives the record of block k.
//
// It takes any words. It gives the record, or the checker's refusal, or `Fault::Call` for a block that is not there.
#![tactic(auto)]

ghost use Rattle.std.specs.Prelude.{◌≡◌};
ghost use Rattle.verdict.specs.Verdict.{numbered};
ghost use Rattle.network.specs.Check.{read};
ghost use Rattle.reader.specs.Reader.{OpenedOn, read_by};

use network::{Opened, opening, record_at};
use record::Block;
use verdict::Refusal;

/// A reader over the lent words, with what opening them found.
#[derive(Clone, Copy, Debug, PartialEq, Eq)]
pub struct Reader<'a> {
    words: &'a [u16],
    found: Result<Opened, Refusal>,
}

impl<'a> Reader<'a> {
    /// Checks all the words.
    pub fn open(words: &'a [u16]) -> Reader<'a>
        ensures { OpenedOn words.entry result }
    {
        Reader {
            words,
            found: opening(words),
        }
    }

    /// The words that it was opened on: what refused ones spell, `network::sizes_in`, `network::block_count` and
    /// `network::end` say.
    pub fn words(self) -> &'a [u16]
        ensures { result ≡ self.entry.words }
    {
        self.words
    }

    /// What the opening found: the sizes and the count, or the checker's refusal.
    pub fn opened(self) -> Result<Opened, Refusal>
        ensures { result ≡ self.entry.found }
    {
        self.found
    }

    /// The record of block k: the checker's refusal, `Fault::Call`, or what the words spell.
    pub fn record(self, k: usize) -> Result<Block, Refusal>
        ensures { numbered result ≡ read_by self.entry.words.now self.entry.found k }
    {
        record_at(self.words, self.found?, k)
    }
}

/// The record of block k of these words, which are checked first.
#[tactic(auto, using(crate::proofs::Reading::gives_record))]
pub fn record_of(words: &[u16], k: usize) -> Result<Block, Refusal>
    ensures { numbered result ≡ read words.now k }
{
    Reader::open(words).record(k)
}
