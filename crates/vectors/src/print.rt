// What a case prints. Its line starts with a line feed.
use std::fmt;
use verdict::Refusal;

// Numbers, each after a space.
#[derive(Clone, Copy)]
pub(crate) struct Numbers<'a>(pub &'a [u16]);

impl fmt::Display for Numbers<'_> {
    fn fmt<W: fmt::Write>(&self, f: &mut fmt::Formatter<W>) -> fmt::Result {
        for number in self.0 {
            write!(f, " {number}")?;
        }
        Ok(())
    }
}

// An answer's number and place, 0 and 0 where the call is done, after a colon.
#[derive(Clone, Copy)]
pub(crate) struct Answer(pub Result<(), Refusal>);

impl fmt::Display for Answer {
    fn fmt<W: fmt::Write>(&self, f: &mut fmt::Formatter<W>) -> fmt::Result {
        match self.0 {
            Ok(()) => write!(f, ": 0 0"),
            Err(refusal) => write!(f, ": {} {}", refusal.fault.number(), refusal.place),
        }
    }
}
