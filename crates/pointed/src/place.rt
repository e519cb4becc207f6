// A block's pointer.
ghost use Rattle.std.specs.Prelude.{◌≡◌};
ghost use Rattle.pointed.specs.Places.{place_at, value_in};

use record::Node;
use rules::Class;
use table::Area;

/// A pointer: a constant, or a register of the table by its word's index, which may be read, or also written.
#[derive(Clone, Copy, Debug, PartialEq, Eq)]
pub enum Place {
    Constant(u16),
    Input(usize),
    Holding(usize),
}

impl Place {
    /// A node's pointer, whose register stands at an index: it is only read but in the holding registers.
    pub fn of(node: Node, at: usize) -> Place
        ensures { result ≡ place_at node at }
    {
        match Class::try_from(node.class) {
            Ok(Class::Constant) => Place::Constant(node.number),
            Ok(Class::Area(Area::Holding)) => Place::Holding(at),
            _ => Place::Input(at),
        }
    }

    /// Its value: the constant, or the content of its register, 0 where that is outside the table.
    pub fn value(&self, table: &[u16]) -> u16
        ensures { result ≡ value_in self.now table.now }
    {
        match self {
            Place::Constant(value) => *value,
            Place::Input(at) | Place::Holding(at) => section::word(table, *at),
        }
    }
}
