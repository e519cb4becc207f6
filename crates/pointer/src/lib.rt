// A pointer and its size, and the steps that a block takes with them.
//
// Every step takes any pointer and any size. A size that is not 16n for n from 1 to the longest comes back with its
// pointer as it was. A number to set it to, a flag beside it and an answer without its size are the promised forms.
#![tactic(auto)]

ghost use Rattle.std.specs.Prelude.{◌≡◌};
ghost use Rattle.pointer.specs.Pointer.{sized, reset, in_range, advanced, set_to, next_of};

use bits::LONGEST;

/// A pointer and its size, the number of bits that it points into.
#[derive(Clone, Copy, Debug, PartialEq, Eq)]
pub struct Pointer {
    pub at: u16,
    pub size: u16,
}

// Whether a size is 16n for n from 1 to the longest.
fn is_size(size: u16) -> bool
    ensures { result ≡ sized size }
{
    size % 16 == 0 && 16 <= size && size as usize <= 16 * LONGEST
}

impl Pointer {
    /// Set to 0 or to 1; unchanged for any other number, since it is promised of any number.
    #[tactic(auto, unfolding(crate::specs::Pointer::reset))]
    pub fn reset(self, to: u16) -> Pointer
        ensures { result ≡ reset self to }
    {
        if is_size(self.size) && to <= 1 {
            Pointer { at: to, ..self }
        } else {
            self
        }
    }

    /// As CMPR takes it: a pointer of 16n or more counts as 0.
    #[tactic(auto, unfolding(crate::specs::Pointer::in_range))]
    pub fn in_range(self) -> Pointer
        ensures { result ≡ in_range self }
    {
        if is_size(self.size) && self.size <= self.at {
            Pointer { at: 0, ..self }
        } else {
            self
        }
    }

    /// As MBIT and SENS increase it: one more, but 16n becomes 1, and over 16n it stays.
    #[tactic(auto, unfolding(crate::specs::Pointer::advanced))]
    pub fn advance(self) -> Pointer
        ensures { result ≡ advanced self }
    {
        if !is_size(self.size) {
            self
        } else if self.at < self.size {
            Pointer {
                at: self.at + 1,
                ..self
            }
        } else if self.at == self.size {
            Pointer { at: 1, ..self }
        } else {
            self
        }
    }
}

/// A pointer set to 0 or to 1 where a reset is asked for.
pub fn set_to(to: u16, asked: bool, pointer: Pointer) -> Pointer
    ensures { result ≡ set_to to asked pointer }
{
    if asked { pointer.reset(to) } else { pointer }
}

/// A pointer advanced where an increase is asked for.
pub fn next(asked: bool, pointer: Pointer) -> u16
    ensures { result ≡ next_of asked pointer }
{
    if asked {
        pointer.advance().at
    } else {
        pointer.at
    }
}
