// Words merged two by two into a run, where they stay: from the first on or from the last back, so that each is read
// before it is written.
//
// What is always inlined, here and in `logic.rt`, is compiled anew for each operation: without it the operation stays a
// call that is made for each word.
ghost use Rattle.std.specs.Prelude.{ℕ, ◌≡◌, ◌+◌, ◌≤◌, length};
ghost use Rattle.matrix.specs.Inner.{merged_at, Rewritten};

// How two words become one.
pub(crate) trait Merge {
    ghost word: { ℕ → ℕ → ℕ };

    fn merged(x: u16, y: u16) -> u16
        ensures { result ≡ word x y };
}

// The word at `at` becomes that of the words at a and at b.
fn merge_one<M: Merge>(table: &mut [u16], a: usize, b: usize, at: usize)
    requires { (a + 1 ≤ length table.old) × (b + 1 ≤ length table.old) × (at + 1 ≤ length table.old) }
    ensures { Rewritten table.old (merged_at M.word table.old a b at) at (at + 1) table.new }
{
    table[at] = M::merged(table[a], table[b]);
}

// The eight words from `at` on become those of the words from a and from b on, all read before any is written: the
// machine reads, merges and writes eight words in a row by one instruction each. By index, since nothing is known of
// what a loop over `iter_mut` wrote.
#[inline(always)]
fn merge_eight<M: Merge>(table: &mut [u16], a: usize, b: usize, at: usize)
    requires { (a + 8 ≤ length table.old) × (b + 8 ≤ length table.old) × (at + 8 ≤ length table.old) }
    ensures { Rewritten table.old (merged_at M.word table.old a b at) at (at + 8) table.new }
{
    let mut words = [0u16; 8];
    for i in 0..8 {
        words[i] = M::merged(table[a + i], table[b + i]);
    }
    for j in 0..8 {
        table[at + j] = words[j];
    }
}

// The n words from `at` on become those of the words from a and from b on, the first ones first: right where a and b
// are no less than `at`.
#[inline(always)]
pub(crate) fn merge_up<M: Merge>(table: &mut [u16], a: usize, b: usize, at: usize, n: usize)
    requires { (a + n ≤ length table.old) × (b + n ≤ length table.old) × (at + n ≤ length table.old) }
    ensures { (at ≤ a) × (at ≤ b) → Rewritten table.old (merged_at M.word table.old a b at) at (at + n) table.new }
{
    for i in 0..n / 8 {
        merge_eight::<M>(table, a + 8 * i, b + 8 * i, at + 8 * i);
    }
    for j in n - n % 8..n {
        merge_one::<M>(table, a + j, b + j, at + j);
    }
}

// The same, the last ones first: right where a and b are no more than `at`.
#[inline(always)]
pub(crate) fn merge_down<M: Merge>(table: &mut [u16], a: usize, b: usize, at: usize, n: usize)
    requires { (a + n ≤ length table.old) × (b + n ≤ length table.old) × (at + n ≤ length table.old) }
    ensures { (a ≤ at) × (b ≤ at) → Rewritten table.old (merged_at M.word table.old a b at) at (at + n) table.new }
{
    let rest = n % 8;
    for i in (0..n / 8).rev() {
        let from = rest + 8 * i;
        merge_eight::<M>(table, a + from, b + from, at + from);
    }
    for j in (0..rest).rev() {
        merge_one::<M>(table, a + j, b + j, at + j);
    }
}
