// Runs of words in a table, given as the index of their first word, counted from 0, and their length in words: which
// are refused, for every call that is handed one.
#![tactic(auto)]

ghost use Rattle.std.specs.Prelude.{◌≡◌};
ghost use Rattle.verdict.specs.Verdict.{fault_number};
ghost use Rattle.runs.specs.Run.{fault, fault_at};

use bits::LONGEST;
use verdict::Fault;

/// Whether runs of n words from a and from b on lie in a table of so many words, where n is 1 to most: `Length` where
/// n is not, `Operand` where a run does not.
#[tactic(auto, unfolding(crate::specs::Run::fault))]
pub fn fault(most: usize, words: usize, n: usize, a: usize, b: usize) -> Result<(), Fault>
    ensures { fault_number result ≡ fault most words n a b }
{
    if n == 0 || most < n {
        return Err(Fault::Length);
    }
    if words < n || words - n < a || words - n < b {
        return Err(Fault::Operand);
    }
    Ok(())
}

/// Whether a position is one of the bits of a run of n words from s on: `Operand` where it is not, or as the run is
/// refused.
#[tactic(auto, unfolding(crate::specs::Run::fault_at))]
pub fn fault_at(words: usize, n: usize, s: usize, p: u16) -> Result<(), Fault>
    ensures { fault_number result ≡ fault_at words n s p }
{
    fault(LONGEST, words, n, s, s)?;
    if p == 0 || 16 * n < p as usize {
        return Err(Fault::Operand);
    }
    Ok(())
}
