// One bit of a matrix.
ghost use Rattle.std.specs.Prelude.{◌≡◌, length};
ghost use Rattle.verdict.specs.Verdict.{numbered, said_by};
ghost use Rattle.matrix.specs.Single.{read_said, put_verdict, put_table};

use runs::fault_at;
use verdict::Refusal;

/// The bit at position p of the n words from s on.
#[tactic(auto, using(crate::proofs::Singles::reading))]
pub fn read_bit(table: &[u16], s: usize, n: usize, p: u16) -> Result<bool, Refusal>
    ensures { numbered result ≡ read_said table.now s n p }
{
    fault_at(table.len(), n, s, p)?;
    let i = p as usize - 1;
    Ok(bits::bit_at(table[s + i / 16], (i % 16 + 1) as u16))
}

/// The bit at position p of the n words from s on put on or off.
#[tactic(auto, using(crate::proofs::Singles::putting), unfolding(crate::specs::Single::put_table))]
pub fn put_bit(table: &mut [u16], s: usize, n: usize, p: u16, on: bool) -> Result<(), Refusal>
    ensures answer { numbered result ≡ said_by (put_verdict (length table.old) s n p) tt }
    ensures table { table.new ≡ put_table table.old s n p on }
{
    fault_at(table.len(), n, s, p)?;
    let i = p as usize - 1;
    let at = s + i / 16;
    table[at] = bits::put_bit(table[at], (i % 16 + 1) as u16, on);
    Ok(())
}
