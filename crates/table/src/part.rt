// The part of a table that is a matrix.
ghost use Rattle.std.specs.Prelude.{◌≡◌};
ghost use Rattle.table.specs.Area.{area_number};
ghost use Rattle.table.specs.Table.{total, before, start_of, shown, part};

use crate::area::Area;
use crate::sizes::{Sizes, allowed};
use level::longest_at;

/// How many words a table of these areas has.
pub fn total(sizes: Sizes) -> u32
    ensures { result ≡ total sizes }
{
    sizes.coils as u32 + sizes.discretes as u32 + sizes.inputs as u32 + sizes.holding as u32
}

// How many words stand before an area.
fn before(sizes: Sizes, area: Area) -> u32
    ensures { result ≡ before sizes (area_number area) }
{
    match area {
        Area::Coils => 0,
        Area::Discretes => sizes.coils as u32,
        Area::Inputs => sizes.coils as u32 + sizes.discretes as u32,
        Area::Holding => sizes.coils as u32 + sizes.discretes as u32 + sizes.inputs as u32,
    }
}

/// The index of a reference's first word in the table. A class that is no area's is read as that of the holding
/// registers: the call is promised of any number.
#[tactic(auto, unfolding(crate::specs::Table::start_of))]
pub fn start(sizes: Sizes, class: u16, number: u16) -> usize
    ensures { result ≡ start_of sizes class number }
{
    let area = Area::try_from(class).unwrap_or(Area::Holding);
    before(sizes, area) as usize + area.offset(number) as usize
}

// Whether a matrix of n words at a reference is shown in a table of so many words.
#[tactic(auto, unfolding(crate::specs::Table::shown))]
fn shown(words: usize, sizes: Sizes, area: Area, number: u16, n: u16) -> bool
    ensures { result ≡ shown words sizes (area_number area) number n }
{
    allowed(sizes)
        && words == total(sizes) as usize
        && (1..=longest_at(sizes.level)).contains(&n)
        && area.holds(sizes, number, n as u32).is_ok()
}

/// The part of the table that is the matrix of n words at a reference, or an empty part.
#[tactic(auto, unfolding(crate::specs::Table::part, crate::specs::Table::shown, crate::specs::Table::start_of))]
pub fn matrix(table: &[u16], sizes: Sizes, class: u16, number: u16, n: u16) -> &[u16]
    ensures { result.now ≡ part table.now sizes class number n }
{
    match Area::try_from(class) {
        Ok(area) if shown(table.len(), sizes, area, number, n) => {
            let from = start(sizes, class, number);
            &table[from..from + n as usize]
        }
        _ => &table[..0],
    }
}
