// The sizes of the four areas, in words, and the level.
ghost use Rattle.std.specs.Prelude.{◌≡◌};
ghost use Rattle.verdict.specs.Verdict.{fault_number};
ghost use Rattle.table.specs.Area.{area_number, reference_test};
ghost use Rattle.table.specs.Table.{allowed, size_of, reference_fault};

use crate::area::Area;
use level::MOST_LEVEL;
use verdict::Fault;

/// The words of each area, and the level: a number, since sizes that are not allowed are a value, too.
#[derive(Clone, Copy, Debug, PartialEq, Eq)]
pub struct Sizes {
    pub coils: u16,
    pub discretes: u16,
    pub inputs: u16,
    pub holding: u16,
    pub level: u16,
}

/// The most words of coils.
pub const MOST_COILS: usize = 128;

/// The most words of discrete inputs.
pub const MOST_DISCRETES: usize = 128;

/// The most words of input registers.
pub const MOST_INPUTS: usize = 512;

/// The most words of holding registers.
pub const MOST_HOLDING: usize = 9999;

/// Whether every area is within its limit, and the level is one.
pub fn allowed(sizes: Sizes) -> bool
    ensures { result ≡ allowed sizes }
{
    sizes.coils as usize <= MOST_COILS
        && sizes.discretes as usize <= MOST_DISCRETES
        && sizes.inputs as usize <= MOST_INPUTS
        && sizes.holding as usize <= MOST_HOLDING
        && (1..=MOST_LEVEL).contains(&(sizes.level as usize))
}

// The words of an area.
fn size_of(sizes: Sizes, area: Area) -> u16
    ensures { result ≡ size_of sizes (area_number area) }
{
    match area {
        Area::Coils => sizes.coils,
        Area::Discretes => sizes.discretes,
        Area::Inputs => sizes.inputs,
        Area::Holding => sizes.holding,
    }
}

impl Area {
    /// Whether it holds a reference to so many of its words, or why not: `Class` for number 0, `Start` where a matrix
    /// of discretes starts within a word, `Operand` where it ends after the area.
    #[tactic(auto, unfolding(crate::specs::Table::reference_fault))]
    pub fn holds(self, sizes: Sizes, number: u16, words: u32) -> Result<(), Fault>
        ensures test { result ≡ reference_test sizes self number words }
        ensures number { fault_number result ≡ reference_fault sizes (area_number self) number words }
    {
        if number == 0 {
            return Err(Fault::Class);
        }
        if self.is_discrete() && number % 16 != 1 {
            return Err(Fault::Start);
        }
        let end = self.offset(number) as usize + words as usize;
        if end <= size_of(sizes, self) as usize {
            Ok(())
        } else {
            Err(Fault::Operand)
        }
    }
}

/// The same of a class's area. A class that is no area's is read as that of the holding registers. No crate here calls
/// it: it stays as a promise to callers that have a class and no area.
#[tactic(auto, unfolding(crate::specs::Table::reference_fault))]
pub fn reference_fault(sizes: Sizes, class: u16, number: u16, words: u32) -> Result<(), Fault>
    ensures { fault_number result ≡ reference_fault sizes class number words }
{
    let area = Area::try_from(class).unwrap_or(Area::Holding);
    area.holds(sizes, number, words)
}
