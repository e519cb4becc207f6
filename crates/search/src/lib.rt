// The first differing position of two matrices in one lent table of words.
//
// The search asks nothing of its caller: it refuses what a call on matrices refuses, as the same faults.
#![tactic(auto)]

ghost use Rattle.std.specs.Prelude.{◌≡◌, true, ◌≤◌, length};
ghost use Rattle.bits.specs.Bit.{longest_whole};
ghost use Rattle.runs.specs.Run.{run, Accepted};
ghost use Rattle.search.specs.Inner.{Paired, Equal};
ghost use Rattle.search.specs.Search.{first_differing, shown, difference_said, first_said};

use bits::LONGEST_WHOLE;
use runs::fault;
use verdict::Refusal;

// Whether the words of x and of y are equal from one on, up to another. All are compared, with no stop at the first
// that differs: of eight words that is one comparison.
#[tactic(auto, using(crate::proofs::Searching::passing))]
fn all_equal(x: &[u16], y: &[u16], from: usize, to: usize) -> bool
    requires { Paired x.now y.now to × (from ≤ to) }
    ensures { result ≡ true → Equal x.now y.now from to }
{
    let mut equal = true;
    for k in from..to {
        if x[k] != y[k] {
            equal = false;
        }
    }
    equal
}

// A word up to which the n words of x and of y are equal, from `from` on: eight are passed at a time, in one
// comparison.
#[tactic(auto, using(crate::proofs::Searching::passing))]
fn equal_from(x: &[u16], y: &[u16], n: usize, from: usize) -> usize
    requires { Paired x.now y.now n × (from ≤ n) }
    ensures { (result ≤ n) × Equal x.now y.now from result }
{
    let mut k = from;
    while k + 8 <= n && all_equal(x, y, k, k + 8) {
        k += 8;
    }
    k
}

// The first position above `above` at which the n words from a on and from b on differ, or nothing. Words that are
// equal are passed without a look at their positions. Words outside, bits inside, left by a label at the first
// difference: the rule for the search asks for this form.
#[tactic(auto, using(crate::proofs::Finding::finding))]
fn first_from(table: &[u16], a: usize, b: usize, n: usize, above: usize) -> Option<u16>
    requires { Accepted longest_whole (length table.now) n a b }
    ensures { shown result ≡ first_differing (run table.now a n) (run table.now b n) n above }
{
    let x = &table[a..a + n];
    let y = &table[b..b + n];
    let end = 16 * n;
    let mut passed = above;
    let mut found = None;
    'words: while passed < end {
        let k = passed / 16;
        let apart = bits::xor_words(x[k], y[k]);
        if apart != 0 {
            for j in (passed % 16) as u16..16 {
                if bits::bit_at(apart, j + 1) {
                    found = Some((16 * k) as u16 + j + 1);
                    break 'words;
                }
            }
        }
        passed = 16 * equal_from(x, y, n, k + 1);
    }
    found
}

/// The first position above `above`, counted from 1, at which the n words from a on and the n words from b on differ,
/// or none.
#[tactic(auto, using(runs::proofs::Refusals::accepted))]
pub fn first_difference(
    table: &[u16],
    a: usize,
    b: usize,
    n: usize,
    above: u16,
) -> Result<Option<u16>, Refusal>
    ensures { difference_said result ≡ first_said table.now a b n above }
{
    fault(LONGEST_WHOLE, table.len(), n, a, b)?;
    Ok(first_from(table, a, b, n, above as usize))
}
