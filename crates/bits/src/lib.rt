// One word of 16 bits, worked on whole and promised by its bits. Bit 1 is the high-order bit, worth 32768; bit 16 is
// worth 1. Every function takes any word and any position, and its contract gives the answer for each of them.
#![tactic(auto)]

ghost use Rattle.std.specs.Prelude.{◌≡◌, not, ◌&&◌, ◌||◌};
ghost use Rattle.std.specs.Bool.{xor};
ghost use Rattle.bits.specs.Bit.{of, word_with};
ghost use Rattle.bits.specs.Word.{rightward, leftward, put};

/// The longest matrix that is read as a whole (AND to BROT), in words.
pub const LONGEST_WHOLE: usize = 100;

/// The longest matrix of all (MBIT, SENS at level 2), in words.
pub const LONGEST: usize = 600;

/// The bits that are on in both.
pub fn and_words(a: u16, b: u16) -> u16
    ensures { result ≡ word_with (λ p. of a p && of b p) }
{
    a & b
}

/// The bits that are on in either.
pub fn or_words(a: u16, b: u16) -> u16
    ensures { result ≡ word_with (λ p. of a p || of b p) }
{
    a | b
}

/// The bits that are on in one alone.
pub fn xor_words(a: u16, b: u16) -> u16
    ensures { result ≡ word_with (λ p. xor (of a p) (of b p)) }
{
    a ^ b
}

/// The bits that are off.
pub fn complement(a: u16) -> u16
    ensures { result ≡ word_with (λ p. not (of a p)) }
{
    !a
}

/// The word moved one to the right: its bit 16 is gone, and bit 16 of the word before it enters at 1.
pub fn move_right(before: u16, w: u16) -> u16
    ensures { result ≡ word_with (rightward before w) }
{
    (w >> 1) | ((before & 1) << 15)
}

/// The word moved one to the left: its bit 1 is gone, and bit 1 of the word after it enters at 16.
pub fn move_left(w: u16, after: u16) -> u16
    ensures { result ≡ word_with (leftward w after) }
{
    (w << 1) | (after >> 15)
}

/// The bit at position p, 1 to 16; off for any other p.
#[tactic(auto, using(crate::proofs::Places::reads))]
pub fn bit_at(w: u16, p: u16) -> bool
    ensures { result ≡ of w p }
{
    match p {
        1..=16 => (w >> (16 - p)) & 1 == 1,
        _ => false,
    }
}

/// The word with the bit at position p, 1 to 16, put on or off; the word itself for any other p.
#[tactic(auto, using(crate::proofs::Places::puts))]
pub fn put_bit(w: u16, p: u16, on: bool) -> u16
    ensures { result ≡ word_with (put w p on) }
{
    match p {
        1..=16 => {
            let mask = 1u16 << (16 - p);
            if on { w | mask } else { w & !mask }
        }
        _ => w,
    }
}
