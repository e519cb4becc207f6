// A block's pointer: what it earns, and its register.
ghost use Rattle.std.specs.Prelude.{◌≡◌, true, cond, ◌&&◌, ◌<◌, length};
ghost use Rattle.std.proofs.Math.Option.{none, some};
ghost use Rattle.verdict.specs.Verdict.{fault_number};
ghost use Rattle.blocks.specs.Work.{matrix_put, one_word};
ghost use Rattle.pointed.specs.Places.{held, place_fault, place_word};

use crate::place::Place;
use bits::LONGEST;
use verdict::Fault;

// Whether a step of a pointer that is asked for is taken: only a held pointer is ever reset or increased.
pub(crate) fn is_taken(place: &Place, asked: bool) -> bool
    ensures { result ≡ held place.now && asked }
{
    match place {
        Place::Holding(_) => asked,
        _ => false,
    }
}

// Whether the n words from d on and a pointer's register lie in a table of so many words.
pub(crate) fn pointed_fault(words: usize, place: &Place, n: usize, d: usize) -> Result<(), Fault>
    ensures { fault_number result ≡ place_fault words place.now n d }
{
    runs::fault(LONGEST, words, n, d, d)?;
    match place {
        Place::Input(at) | Place::Holding(at) if words <= *at => Err(Fault::Operand),
        _ => Ok(()),
    }
}

// A held pointer's register becomes the new pointer, where there is one.
#[tactic(auto, using(crate::proofs::Stored::word_put), unfolding(blocks::specs::Work::matrix_put))]
pub(crate) fn put_held(table: &mut [u16], place: &Place, new: bool, at: u16)
    requires held { new ≡ true → held place.now ≡ true }
    requires lies { new ≡ true → place_word place.now < length table.old }
    ensures { table.new ≡ matrix_put (place_word place.now) (one_word (cond new (some at) none)) table.old }
{
    match place {
        Place::Holding(p) if new => table[*p] = at,
        _ => (),
    }
}

// The word at an index becomes the new pointer, where there is one.
#[tactic(auto, using(crate::proofs::Stored::word_put), unfolding(blocks::specs::Work::matrix_put))]
pub(crate) fn put_pointer(table: &mut [u16], p: usize, new: bool, at: u16)
    requires { new ≡ true → p < length table.old }
    ensures { table.new ≡ matrix_put p (one_word (cond new (some at) none)) table.old }
{
    if new {
        table[p] = at;
    }
}
