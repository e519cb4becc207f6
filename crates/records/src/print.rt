// What the program prints of a record, of outputs, of a table and of a refusal, each after a space.
use outputs::Outputs;
use record::Block;
use std::fmt;
use verdict::Refusal;

// A refusal, by its number and its place.
#[derive(Clone, Copy)]
pub(crate) struct Refused(pub Refusal);

impl fmt::Display for Refused {
    fn fmt<W: fmt::Write>(&self, f: &mut fmt::Formatter<W>) -> fmt::Result {
        write!(f, " {}", self.0)
    }
}

// The record of a block.
#[derive(Clone, Copy)]
pub(crate) struct Record(pub Block);

impl fmt::Display for Record {
    fn fmt<W: fmt::Write>(&self, f: &mut fmt::Formatter<W>) -> fmt::Result {
        let Block {
            kind,
            n,
            top,
            middle,
            inputs,
            coils,
        } = self.0;
        write!(f, " kind {kind}, n {n}")?;
        write!(f, ", top {} {}", top.class, top.number)?;
        write!(f, ", middle {} {}, inputs", middle.class, middle.number)?;
        for input in [inputs.top, inputs.middle, inputs.bottom] {
            write!(f, " {} {}", input.code, input.number)?;
        }
        write!(f, ", coils {} {} {}", coils.top, coils.middle, coils.bottom)
    }
}

// A list of outputs, with 1 for power and 0 for none before the count, and a comma after each.
#[derive(Clone, Copy)]
pub(crate) struct List(pub [Outputs; 5]);

impl fmt::Display for List {
    fn fmt<W: fmt::Write>(&self, f: &mut fmt::Formatter<W>) -> fmt::Result {
        write!(f, " list")?;
        for outputs in self.0 {
            let top = outputs.top as u8;
            let middle = outputs.middle as u8;
            let bottom = outputs.bottom as u8;
            write!(f, " {top} {middle} {bottom} {},", outputs.count)?;
        }
        Ok(())
    }
}

// The words of a table, in hex.
#[derive(Clone, Copy)]
pub(crate) struct Table<'a>(pub &'a [u16]);

impl fmt::Display for Table<'_> {
    fn fmt<W: fmt::Write>(&self, f: &mut fmt::Formatter<W>) -> fmt::Result {
        write!(f, " table")?;
        for word in self.0 {
            write!(f, " {word:04x}")?;
        }
        Ok(())
    }
}
