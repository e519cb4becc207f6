// The four areas of a table, and the numbers that stand for them.
ghost use Rattle.std.specs.Prelude.{◌≡◌};
ghost use Rattle.table.specs.Area.{IsAreaOf, area_number};
ghost use Rattle.table.specs.Table.{discrete, offset};

/// An area of a table.
#[derive(Clone, Copy, Debug, PartialEq, Eq)]
pub enum Area {
    Coils,
    Discretes,
    Inputs,
    Holding,
}

/// A number that stands for no area.
#[derive(Clone, Copy, Debug, PartialEq, Eq)]
pub struct NoArea;

impl TryFrom<u16> for Area {
    type Error = NoArea;

    ghost try_from_gives = { IsAreaOf };

    fn try_from(class: u16) -> Result<Self, NoArea> {
        match class {
            0 => Ok(Area::Coils),
            1 => Ok(Area::Discretes),
            3 => Ok(Area::Inputs),
            4 => Ok(Area::Holding),
            _ => Err(NoArea),
        }
    }
}

impl Area {
    // Whether it holds discretes, 16 to a word.
    pub(crate) fn is_discrete(self) -> bool
        ensures { result ≡ discrete (area_number self) }
    {
        matches!(self, Area::Coils | Area::Discretes)
    }

    // How many of its words stand before a reference.
    pub(crate) fn offset(self, number: u16) -> u16
        ensures { result ≡ offset (area_number self) number }
    {
        let passed = number.saturating_sub(1);
        if self.is_discrete() {
            passed / 16
        } else {
            passed
        }
    }
}
