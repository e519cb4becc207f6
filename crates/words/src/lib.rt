// The words of a bench file: its bytes as big-endian words.
//
// The call takes any bytes and any words. It does its work, or it refuses and changes nothing.
#![tactic(auto)]

ghost use Rattle.std.specs.Prelude.{◌≡◌, ◌+◌, ◌*◌};
ghost use Rattle.verdict.specs.Verdict.{numbered};
ghost use Rattle.words.specs.Words.{to_words, filled};

use verdict::{Fault, Refusal};

/// How many words the bytes make, and whether an odd byte is left.
#[derive(Clone, Copy, Debug, PartialEq, Eq)]
pub struct Converted {
    pub count: usize,
    pub odd: bool,
}

// The word of two bytes, the high-order one first.
fn joined(high: u8, low: u8) -> u16
    ensures { result ≡ 256 * high + low }
{
    u16::from_be_bytes([high, low])
}

/// Puts the bytes as words at the front of the lent words: `Fault::Call` where these are fewer than the bytes make.
#[tactic(auto, using(crate::proofs::Filling::one_more), unfolding(crate::specs::Words::to_words))]
pub fn to_words(bytes: &[u8], words: &mut [u16]) -> Result<Converted, Refusal>
    ensures answer { numbered result ≡ to_words bytes.now words.old }
    ensures words { words.new ≡ filled bytes.now words.old }
{
    let count = bytes.len() / 2;
    if words.len() < count {
        return Err(Fault::Call.at(0));
    }
    // By index: of what a loop over `iter_mut` wrote, nothing is known afterwards.
    for k in 0..count {
        words[k] = joined(bytes[2 * k], bytes[2 * k + 1]);
    }
    let odd = bytes.len() % 2 == 1;
    Ok(Converted { count, odd })
}
