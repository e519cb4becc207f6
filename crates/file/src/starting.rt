// The start of a file's run: its image goes to the front of a lent table.
ghost use Rattle.std.specs.Prelude.{◌+◌, ◌≤◌, ◌≡◌, ◌++◌, length, take, drop};
ghost use Rattle.verdict.specs.Verdict.{numbered};
ghost use Rattle.file.specs.Start.{started, start_table};

use crate::checker::{OpenedFile, check};
use verdict::{Fault, Refusal};

// Puts so many words, which stand from an index on, at the front of the table.
fn put_image(words: &[u16], image: usize, count: usize, table: &mut [u16])
    requires { (image + count ≤ length words.now) × (count ≤ length table.old) }
    ensures { table.new ≡ take count (drop image words.now) ++ drop count table.old }
{
    table[..count].copy_from_slice(&words[image..image + count]);
}

/// Checks a file of these words, after which an odd byte may stand, and puts its image at the front of the table, which
/// has at least the words of the areas together; words after the image stay.
#[tactic(auto, using(crate::proofs::Starts::start_refused, crate::proofs::Starts::start_done))]
pub fn start(words: &[u16], odd: bool, table: &mut [u16]) -> Result<OpenedFile, Refusal>
    ensures answer { numbered result ≡ started words.now odd (length table.old) }
    ensures table { table.new ≡ start_table words.now odd table.old }
{
    let file = check(words, odd)?;
    if table.len() < file.words {
        return Err(Fault::Call.at(0));
    }
    put_image(words, file.image, file.words, table);
    Ok(file)
}
