// The rules for the eight kinds, in one constant table.
ghost use Rattle.std.specs.Prelude.{◌≡◌};
ghost use Rattle.rules.specs.Codes.{kind_number, class_number};
ghost use Rattle.rules.specs.Rules.{rule, allows};

use crate::codes::{Class, Kind};
use level::{ByLevel, SINGLE_LENGTH, WHOLE_LENGTH};
use table::Area;

/// The classes that a node may have.
#[derive(Clone, Copy, Debug, PartialEq, Eq)]
pub struct Classes {
    pub coils: bool,
    pub discretes: bool,
    pub inputs: bool,
    pub holding: bool,
    pub constants: bool,
}

/// The classes of both nodes, the greatest length by level, the middle node's registers beside its matrix, and whether
/// the top node is a pointer.
#[derive(Clone, Copy, Debug, PartialEq, Eq)]
pub struct Rule {
    pub top: Classes,
    pub middle: Classes,
    pub most: ByLevel,
    pub extra: u16,
    pub pointer: bool,
}

const ANY_MATRIX: Classes = Classes {
    coils: true,
    discretes: true,
    inputs: true,
    holding: true,
    constants: false,
};

const WRITABLE: Classes = Classes {
    coils: true,
    discretes: false,
    inputs: false,
    holding: true,
    constants: false,
};

const HELD: Classes = Classes {
    coils: false,
    discretes: false,
    inputs: false,
    holding: true,
    constants: false,
};

const POINTERS: Classes = Classes {
    coils: false,
    discretes: false,
    inputs: true,
    holding: true,
    constants: true,
};

const LOGIC: Rule = Rule {
    top: ANY_MATRIX,
    middle: WRITABLE,
    most: WHOLE_LENGTH,
    extra: 0,
    pointer: false,
};

const COMPARE: Rule = Rule {
    top: ANY_MATRIX,
    middle: HELD,
    most: WHOLE_LENGTH,
    extra: 1,
    pointer: false,
};

const MODIFY: Rule = Rule {
    top: POINTERS,
    middle: WRITABLE,
    most: SINGLE_LENGTH,
    extra: 0,
    pointer: true,
};

const SENSE: Rule = Rule {
    top: POINTERS,
    middle: ANY_MATRIX,
    most: SINGLE_LENGTH,
    extra: 0,
    pointer: true,
};

// AND, OR, XOR, COMP, CMPR, MBIT, SENS, BROT: one constant table of rows, in the order of the kinds' numbers from 1 on,
// is the one place of the rules.
static RULES: [Rule; 8] = [LOGIC, LOGIC, LOGIC, LOGIC, COMPARE, MODIFY, SENSE, LOGIC];

/// The row of a kind.
#[tactic(auto, unfolding(crate::specs::Rules::rule))]
pub fn rule_of(kind: Kind) -> &'static Rule
    ensures { result.now ≡ rule (kind_number kind) }
{
    &RULES[kind as usize - 1]
}

impl Classes {
    /// Whether a node may have a class.
    #[tactic(auto, unfolding(crate::specs::Rules::allows))]
    pub fn allows(self, class: Class) -> bool
        ensures { result ≡ allows self (class_number class) }
    {
        match class {
            Class::Area(Area::Coils) => self.coils,
            Class::Area(Area::Discretes) => self.discretes,
            Class::Area(Area::Inputs) => self.inputs,
            Class::Area(Area::Holding) => self.holding,
            Class::Constant => self.constants,
        }
    }
}
