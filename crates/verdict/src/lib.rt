// Why words, or a call, are refused, and at which word.
#![tactic(auto)]

ghost use Rattle.std.specs.Prelude.{◌≡◌, ◌++◌, Some, codes, decimal};
ghost use Rattle.verdict.specs.Verdict.{number_of, refusal};

use std::fmt;

/// Why words, or a call, are refused.
#[derive(Clone, Copy, Debug, PartialEq, Eq)]
pub enum Fault {
    /// A word that is not there.
    Missing,
    /// A section's count that is not allowed.
    Count,
    /// A size, a level or a count of scans outside its limits.
    Limit,
    /// A number that stands for no kind of block.
    Kind,
    /// A length that the kind does not take.
    Length,
    /// A node's class that is not allowed there, or a number of its class that is none.
    Class,
    /// A matrix of discretes that does not start at a word's first bit.
    Start,
    /// An operand that runs past its area, or a run or a position outside its table or its matrix.
    Operand,
    /// An input's code that is none, or a number that is none of its code.
    Input,
    /// A coil that is not in the table.
    Coil,
    /// Words, or an odd byte, after the last word that is needed.
    LeftOver,
    /// A call that asks for what is not there, or lends too little.
    Call,
}

/// A refusal: why, and the number of the word, from 1, or 0 where it is one of a call. A number and no `Option`: it
/// is printed as it stands, and 0 is promised.
#[derive(Clone, Copy, Debug, PartialEq, Eq)]
pub struct Refusal {
    pub fault: Fault,
    pub place: usize,
}

impl Fault {
    /// The number that stands for it.
    pub fn number(self) -> u16
        ensures { result ≡ number_of self }
    {
        // A row for each: the numbers are promised to the outside, whatever the order of the variants.
        match self {
            Fault::Missing => 1,
            Fault::Count => 2,
            Fault::Limit => 3,
            Fault::Kind => 4,
            Fault::Length => 5,
            Fault::Class => 6,
            Fault::Start => 7,
            Fault::Operand => 8,
            Fault::Input => 9,
            Fault::Coil => 10,
            Fault::LeftOver => 11,
            Fault::Call => 12,
        }
    }

    /// A refusal for it, at a word's number.
    pub fn at(self, place: usize) -> Refusal
        ensures { result ≡ refusal self place }
    {
        Refusal { fault: self, place }
    }
}

/// As programs print it: by its number and its place.
impl fmt::Display for Refusal {
    ghost output = { λ r. Some (codes "refused " ++ (decimal (number_of r.fault) ++ (codes " " ++ decimal r.place))) };

    fn fmt<W: fmt::Write>(&self, f: &mut fmt::Formatter<W>) -> fmt::Result {
        write!(f, "refused {} {}", self.fault.number(), self.place)
    }
}

/// A refusal of a call, at place 0.
impl From<Fault> for Refusal {
    ghost from_gives = { λ fault r. r ≡ refusal fault 0 };

    fn from(fault: Fault) -> Refusal {
        fault.at(0)
    }
}
