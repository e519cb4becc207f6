// The levels of a machine, 1 and 2, and the limits that go by them. At another level nothing is allowed: a limit is 0
// there.
//
// Every call takes any number for a level, as `at_level` promises of it: so it is no enum.
#![tactic(auto, unfolding(crate::specs::Level::at_level))]

ghost use Rattle.std.specs.Prelude.{◌≡◌};
ghost use Rattle.level.specs.Level.{at_level, single_length, most_constant};

use bits::{LONGEST, LONGEST_WHOLE};

/// The highest level.
pub const MOST_LEVEL: usize = 2;

/// A limit at level 1 and at level 2.
#[derive(Clone, Copy, Debug, PartialEq, Eq)]
pub struct ByLevel {
    pub one: u16,
    pub two: u16,
}

/// The greatest length, in words, of a matrix that a block works on as a whole (AND to BROT).
pub const WHOLE_LENGTH: ByLevel = ByLevel {
    one: LONGEST_WHOLE as u16,
    two: LONGEST_WHOLE as u16,
};

/// The greatest length, in words, of one in which it works on single bits (MBIT, SENS), or that is asked for.
pub const SINGLE_LENGTH: ByLevel = ByLevel {
    one: 255,
    two: LONGEST as u16,
};

// The greatest constant.
const MOST_CONSTANT: ByLevel = ByLevel {
    one: 999,
    two: 9600,
};

/// A limit at a level; 0 at one that is none.
pub fn at_level(limit: ByLevel, level: u16) -> u16
    ensures { result ≡ at_level limit level }
{
    match level {
        1 => limit.one,
        2 => limit.two,
        _ => 0,
    }
}

/// How long a matrix that is asked for may be, in words.
pub fn longest_at(level: u16) -> u16
    ensures { result ≡ at_level single_length level }
{
    at_level(SINGLE_LENGTH, level)
}

/// How high a constant may be.
pub fn constant_at(level: u16) -> u16
    ensures { result ≡ at_level most_constant level }
{
    at_level(MOST_CONSTANT, level)
}
