// A block's record, and what record stands in the words from an index on.
//
// Any 15 words are a record. A word that is missing reads as 0. Kinds, classes and codes stay the numbers that the
// words spell: a record that is refused is a value, too, which `judged` and `write_record` take.
#![tactic(auto)]

ghost use Rattle.std.specs.Prelude.{◌≡◌, ℕ, ◌+◌, ◌≤◌, ◌<◌, length, drop};
ghost use Rattle.section.specs.Walk.{word};
ghost use Rattle.record.specs.Record.{block_in, block_from, spelled};

/// How many words a record has.
pub const WORDS: usize = 15;

/// A reference: its class (0, 1, 3 or 4, or 9 for a constant) and its number.
#[derive(Clone, Copy, Debug, PartialEq, Eq)]
pub struct Node {
    pub class: u16,
    pub number: u16,
}

/// An input: its code (0 to 8) and its number.
#[derive(Clone, Copy, Debug, PartialEq, Eq)]
pub struct Input {
    pub code: u16,
    pub number: u16,
}

/// The three inputs.
#[derive(Clone, Copy, Debug, PartialEq, Eq)]
pub struct Inputs {
    pub top: Input,
    pub middle: Input,
    pub bottom: Input,
}

/// The coils of the three outputs, 0 for none.
#[derive(Clone, Copy, Debug, PartialEq, Eq)]
pub struct Coils {
    pub top: u16,
    pub middle: u16,
    pub bottom: u16,
}

/// A record: any 15 words are one.
#[derive(Clone, Copy, Debug, PartialEq, Eq)]
pub struct Block {
    pub kind: u16,
    pub n: u16,
    pub top: Node,
    pub middle: Node,
    pub inputs: Inputs,
    pub coils: Coils,
}

impl Block {
    /// Its words, in the order in which they stand.
    #[tactic(auto, unfolding(crate::specs::Record::spelled))]
    pub fn words(self) -> [u16; WORDS]
        ensures { result ≡ spelled self }
    {
        [
            self.kind,
            self.n,
            self.top.class,
            self.top.number,
            self.middle.class,
            self.middle.number,
            self.inputs.top.code,
            self.inputs.top.number,
            self.inputs.middle.code,
            self.inputs.middle.number,
            self.inputs.bottom.code,
            self.inputs.bottom.number,
            self.coils.top,
            self.coils.middle,
            self.coils.bottom,
        ]
    }
}

// The record whose 15 words stand from an index on.
fn whole_block_at(words: &[u16], i: usize) -> Block
    requires { i + 15 ≤ length words.now }
    ensures { result ≡ block_from words.now i }
{
    Block {
        kind: words[i],
        n: words[i + 1],
        top: Node {
            class: words[i + 2],
            number: words[i + 3],
        },
        middle: Node {
            class: words[i + 4],
            number: words[i + 5],
        },
        inputs: Inputs {
            top: Input {
                code: words[i + 6],
                number: words[i + 7],
            },
            middle: Input {
                code: words[i + 8],
                number: words[i + 9],
            },
            bottom: Input {
                code: words[i + 10],
                number: words[i + 11],
            },
        },
        coils: Coils {
            top: words[i + 12],
            middle: words[i + 13],
            bottom: words[i + 14],
        },
    }
}

// The 15 words from an index on, not all of which are there: a missing one is 0.
fn padded(words: &[u16], i: usize) -> [u16; WORDS]
    requires { (i ≤ 4294967295) × (length words.now < i + 15) }
    ensures { (k : ℕ) → word result k ≡ word words.now (i + k) }
{
    let mut fifteen = [0u16; WORDS];
    if let Some(rest) = words.get(i..) {
        fifteen[..rest.len()].copy_from_slice(rest);
    }
    fifteen
}

/// The record whose words stand from an index on, a missing word read as 0.
pub fn block_at(words: &[u16], at: u32) -> Block
    ensures { result ≡ block_in (drop at words.now) }
{
    // Whether all are there is tested once.
    let i = at as usize;
    if i + WORDS <= words.len() {
        return whole_block_at(words, i);
    }
    whole_block_at(&padded(words, i), 0)
}
