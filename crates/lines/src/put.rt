// Bytes and numbers put into a lent buffer, from a place on. Each answers the place after what it put.
ghost use Rattle.std.specs.Prelude.{◌+◌, ◌≤◌, ◌≡◌, length};
ghost use Rattle.text.specs.Text.{places, decimal};
ghost use Rattle.text.specs.Inner.{Put};

// N bytes.
pub(crate) fn put_bytes<const N: usize>(text: &mut [u8], at: usize, bytes: [u8; N]) -> usize
    requires { at + N ≤ length text.old }
    ensures { Put N text.old at bytes.entry result text.new }
{
    let next = at + N;
    text[at..next].copy_from_slice(&bytes);
    next
}

// A number that takes N decimal digits. Each N has its own loop: with one for all, 1000 scans of 128 compares
// of ten words that all differ take 29.7 million instructions, in place of 26.2.
pub(crate) fn put_digits<const N: usize>(text: &mut [u8], at: usize, n: u16) -> usize
    requires { (places n ≡ N) × (at + N ≤ length text.old) }
    ensures { Put 5 text.old at (decimal n) result text.new }
{
    let mut rest = n;
    for i in (0..N).rev() {
        text[at + i] = b'0' + (rest % 10) as u8;
        rest /= 10;
    }
    at + N
}

// A number in as many decimal digits as it takes.
#[tactic(auto, using(text::proofs::Putting::places_laws))]
pub(crate) fn put_number(text: &mut [u8], at: usize, n: u16) -> usize
    requires { at + 5 ≤ length text.old }
    ensures { Put 5 text.old at (decimal n) result text.new }
{
    match n {
        0..=9 => put_digits::<1>(text, at, n),
        10..=99 => put_digits::<2>(text, at, n),
        100..=999 => put_digits::<3>(text, at, n),
        1000..=9999 => put_digits::<4>(text, at, n),
        _ => put_digits::<5>(text, at, n),
    }
}
