// One bit of a matrix at a pointer; at 0 there is none.
ghost use Rattle.std.specs.Prelude.{◌≡◌, ◌*◌, ◌≤◌, length};
ghost use Rattle.bits.specs.Bit.{bit, longest};
ghost use Rattle.runs.specs.Run.{run, Accepted};
ghost use Rattle.pointed.specs.Inner.{put_at};

// The bit at position p of the n words from s on; at 0 it is off.
#[tactic(auto, using(matrix::proofs::Singles::single_bit), unfolding(bits::specs::Bit::bit))]
pub(crate) fn bit(table: &[u16], s: usize, n: usize, p: u16) -> bool
    requires { Accepted longest (length table.now) n s s × (p ≤ 16 * n) }
    ensures { result ≡ bit (run table.now s n) p }
{
    if p == 0 {
        return false;
    }
    let i = p as usize - 1;
    bits::bit_at(table[s + i / 16], (i % 16 + 1) as u16)
}

// The bit at position p of the n words from d on put on or off; none where p is 0.
#[tactic(auto, using(crate::proofs::Stored::none_put, crate::proofs::Stored::one_put))]
pub(crate) fn put_at(table: &mut [u16], d: usize, n: usize, p: u16, on: bool)
    requires { Accepted longest (length table.old) n d d × (p ≤ 16 * n) }
    ensures { table.new ≡ put_at table.old d n p on }
{
    if p != 0 {
        let _ = matrix::put_bit(table, d, n, p, on);
    }
}
