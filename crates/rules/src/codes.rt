// The kinds of blocks, the classes of nodes and the codes of inputs, and the numbers that stand for them.
ghost use Rattle.std.specs.Prelude.{◌≡◌};
ghost use Rattle.rules.specs.Codes.{kind_from, class_from, source_from};

use table::Area;

/// A number that stands for nothing here.
#[derive(Clone, Copy, Debug, PartialEq, Eq)]
pub struct Unknown;

/// The eight kinds of blocks.
#[derive(Clone, Copy, Debug, PartialEq, Eq)]
pub enum Kind {
    And = 1,
    Or,
    Xor,
    Comp,
    Cmpr,
    Mbit,
    Sens,
    Brot,
}

impl TryFrom<u16> for Kind {
    type Error = Unknown;

    ghost try_from_gives = { λ n r. r ≡ kind_from n };

    fn try_from(n: u16) -> Result<Self, Unknown> {
        match n {
            1 => Ok(Kind::And),
            2 => Ok(Kind::Or),
            3 => Ok(Kind::Xor),
            4 => Ok(Kind::Comp),
            5 => Ok(Kind::Cmpr),
            6 => Ok(Kind::Mbit),
            7 => Ok(Kind::Sens),
            8 => Ok(Kind::Brot),
            _ => Err(Unknown),
        }
    }
}

/// What a node refers to: an area of the table, or a constant.
#[derive(Clone, Copy, Debug, PartialEq, Eq)]
pub enum Class {
    Area(Area),
    Constant,
}

impl TryFrom<u16> for Class {
    type Error = Unknown;

    ghost try_from_gives = { λ n r. r ≡ class_from n };

    #[tactic(auto, using(crate::proofs::AreaClasses::area_class, crate::proofs::AreaClasses::no_class))]
    fn try_from(n: u16) -> Result<Self, Unknown> {
        match n {
            9 => Ok(Class::Constant),
            _ => match Area::try_from(n) {
                Ok(area) => Ok(Class::Area(area)),
                Err(_) => Err(Unknown),
            },
        }
    }
}

/// Where an input's power comes from.
#[derive(Clone, Copy, Debug, PartialEq, Eq)]
pub enum Source {
    Never,
    Always,
    OpenCoil,
    ClosedCoil,
    OpenDiscrete,
    ClosedDiscrete,
    TopOutput,
    MiddleOutput,
    BottomOutput,
}

impl TryFrom<u16> for Source {
    type Error = Unknown;

    ghost try_from_gives = { λ n r. r ≡ source_from n };

    fn try_from(n: u16) -> Result<Self, Unknown> {
        match n {
            0 => Ok(Source::Never),
            1 => Ok(Source::Always),
            2 => Ok(Source::OpenCoil),
            3 => Ok(Source::ClosedCoil),
            4 => Ok(Source::OpenDiscrete),
            5 => Ok(Source::ClosedDiscrete),
            6 => Ok(Source::TopOutput),
            7 => Ok(Source::MiddleOutput),
            8 => Ok(Source::BottomOutput),
            _ => Err(Unknown),
        }
    }
}
