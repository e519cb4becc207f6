// The verdict on a whole file: the network at its front, then the image, then the run, each word when it is reached.
ghost use Rattle.std.specs.Prelude.{◌≡◌, ◌≤◌, ◌+◌};
ghost use Rattle.verdict.specs.Verdict.{numbered};
ghost use Rattle.file.specs.File.{rest_in, opened_file, last_end, largest_table};
ghost use Rattle.file.specs.Steps.{image_tested, run_tested, tail_tested, rest_by, file_tested};

use network::Opened;
use section::{count, counted, reach, word};
use verdict::{Fault, Refusal};

/// An accepted file: the network at its front, the index of the image's first word, how many words the image has, and
/// the scans.
#[derive(Clone, Copy, Debug, PartialEq, Eq)]
pub struct OpenedFile {
    pub network: Opened,
    pub image: usize,
    pub words: usize,
    pub scans: u16,
}

/// What words spell after their network: the index of the image's first word, how many words the image has, and the
/// scans.
#[derive(Clone, Copy, Debug, PartialEq, Eq)]
pub struct Rest {
    pub image: usize,
    pub words: usize,
    pub scans: u16,
}

// The most scans of a run.
const MOST_SCANS: usize = 1000;

// The image, which has so many words and whose count stands at an index: the words only have to be there.
fn image(words: &[u16], at: usize, total: usize) -> Result<(), Refusal>
    requires { (at ≤ last_end) × (total ≤ largest_table) }
    ensures { result ≡ image_tested words.now at total }
{
    count(word(words, at) as usize == total, at as u32, words.len())?;
    if words.len() < at + 1 + total {
        return Err(Fault::Missing.at(words.len() + 1));
    }
    Ok(())
}

// The run, whose count stands at an index.
fn run(words: &[u16], at: usize) -> Result<(), Refusal>
    requires { at ≤ last_end + 1 + largest_table }
    ensures { result ≡ run_tested words.now at }
{
    count(word(words, at) == 1, at as u32, words.len())?;
    let scans = word(words, at + 1) as usize;
    reach(
        counted(MOST_SCANS, scans, Fault::Limit),
        at as u32,
        1,
        words.len(),
    )
}

// What stands after the network: the image, the run, then nothing.
fn tail(words: &[u16], at: usize, total: usize, odd: bool) -> Result<(), Refusal>
    requires { (at ≤ last_end) × (total ≤ largest_table) }
    ensures { result ≡ tail_tested words.now at total odd }
{
    image(words, at, total)?;
    let from = at + 1 + total;
    run(words, from)?;
    let end = from + 2;
    if end < words.len() || odd {
        return Err(Fault::LeftOver.at(end + 1));
    }
    Ok(())
}

// What is spelled after a network that ends before an index, where the table has so many words.
fn rest_at(words: &[u16], at: usize, total: usize) -> Rest
    requires { (at ≤ last_end) × (total ≤ largest_table) }
    ensures { result ≡ rest_by words.now at total }
{
    let image = at + 1;
    let scans = word(words, image + total + 1);
    Rest {
        image,
        words: total,
        scans,
    }
}

/// What words spell after their network, refused words too.
#[tactic(auto, using(crate::proofs::Files::end_near, crate::proofs::Files::rest_said))]
pub fn rest_in(words: &[u16]) -> Rest
    ensures { result ≡ rest_in words.now }
{
    let total = table::total(network::sizes_in(words)) as usize;
    rest_at(words, network::end(words), total)
}

// The network, and what stands after it. Apart from `check` and its contract in numbers, so that each `?` is proved
// once.
#[tactic(auto, using(crate::proofs::Steps::near))]
fn test(words: &[u16], odd: bool) -> Result<OpenedFile, Refusal>
    ensures { result ≡ file_tested words.now odd }
{
    let network = network::leading(words)?;
    let next = network.next();
    let total = table::total(network.sizes()) as usize;
    tail(words, next, total, odd)?;
    let rest = rest_at(words, next, total);
    Ok(OpenedFile {
        network,
        image: rest.image,
        words: rest.words,
        scans: rest.scans,
    })
}

/// A file of these words, after which an odd byte may stand. What refused words spell, `network::sizes_in`,
/// `network::block_count`, `network::end` and `rest_in` say.
#[tactic(auto, using(crate::proofs::Steps::file_said))]
pub fn check(words: &[u16], odd: bool) -> Result<OpenedFile, Refusal>
    ensures { numbered result ≡ opened_file words.now odd }
{
    test(words, odd)
}
