// Words in sections: a network and a file are sections one after the other, each after its count, whose words are
// checked from the first on. What a section is, and what is true of any sections in turn, stands in `specs/` and
// `proofs/`. And how a number is tested by a limit.
#![tactic(auto)]

mod limit;

ghost use Rattle.std.specs.Prelude.{◌≡◌, ◌+◌, cond, [], ◌∷◌, Ok, Err};
ghost use Rattle.verdict.specs.declared.Fault.TheVariants.{Count};
ghost use Rattle.verdict.specs.Verdict.{numbered, said_by};
ghost use Rattle.section.specs.Walk.{word, seek, reached};

pub use limit::{counted, up_to};
use verdict::{Fault, Refusal};

/// The word at an index, or 0 where there is none.
pub fn word(words: &[u16], i: usize) -> u16
    ensures { result ≡ word words.now i }
{
    words.get(i).copied().unwrap_or(0)
}

/// A word's test when the word is reached, which stands so many words after an index among so many: it is missing, or
/// its test decides.
pub fn reach<T: Copy>(
    test: Result<T, Fault>,
    at: u32,
    after: u16,
    size: usize,
) -> Result<T, Refusal>
    ensures { result ≡ reached test size (at + after) }
{
    let i = at as usize + after as usize;
    let place = i + 1;
    if size <= i {
        return Err(Fault::Missing.at(place));
    }
    test.map_err(|fault| fault.at(place))
}

/// A section's count, which stands at an index among so many words.
#[tactic(auto, unfolding(crate::specs::Walk::seek))]
pub fn count(allowed: bool, at: u32, size: usize) -> Result<(), Refusal>
    ensures steps { result ≡ reached (cond allowed (Ok tt) (Err Count)) size at }
    ensures number { numbered result ≡ said_by (seek (cond allowed 0 2 ∷ []) size at) tt }
{
    let test = if allowed { Ok(()) } else { Err(Fault::Count) };
    reach(test, at, 0, size)
}
