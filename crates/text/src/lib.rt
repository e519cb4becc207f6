// What the lines of a run are: their definitions and the laws about them, whether a line fits into a buffer, and the
// label of a number.
//
// Each public call takes any numbers. Whoever prints many lines makes a number's label once and keeps it: a machine
// word, as `label` promises, which is put in one piece.
#![tactic(auto)]

ghost use Rattle.std.specs.Prelude.{◌≡◌};
ghost use Rattle.text.specs.Text.{places, label_of, line_fits};

/// The bytes that a line may take.
pub const LONGEST_LINE: usize = 32;

/// What the highest byte of a machine word counts in: 2 ^ 56.
pub const HIGHEST: u64 = 1 << 56;

/// Whether a line fits from a place on into so many bytes.
pub fn line_fits(room: usize, at: usize) -> bool
    ensures { result ≡ line_fits room at }
{
    room.checked_sub(LONGEST_LINE)
        .is_some_and(|last| at <= last)
}

// The label of a number that takes N decimal digits. Each N has its own loop: with one for all, 128 blocks and
// one scan take 270 thousand instructions, in place of 267 thousand.
#[tactic(auto, using(crate::proofs::Labels::label_laws))]
fn digits_label<const N: usize>(n: u16) -> u64
    requires { places n ≡ N }
    ensures { result ≡ label_of n }
{
    let mut word = b' ' as u64;
    let mut rest = n;
    for _ in 0..N {
        word = 256 * word + (b'0' as u16 + rest % 10) as u64;
        rest /= 10;
    }
    word + (N as u64 + 1) * HIGHEST
}

/// A number and a space as a label: up to seven bytes in a machine word, the first the lowest, and how many there are
/// in its highest byte.
#[tactic(auto, using(crate::proofs::Putting::places_laws))]
pub fn label(n: u16) -> u64
    ensures { result ≡ label_of n }
{
    match n {
        0..=9 => digits_label::<1>(n),
        10..=99 => digits_label::<2>(n),
        100..=999 => digits_label::<3>(n),
        1000..=9999 => digits_label::<4>(n),
        _ => digits_label::<5>(n),
    }
}
