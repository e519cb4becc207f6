// A coil that an output is written to.
ghost use Rattle.std.specs.Prelude.{◌≡◌, ◌*◌, ◌≤◌, length};
ghost use Rattle.network.specs.Network.{areas_only};
ghost use Rattle.blocks.specs.Work.{coil_put};

use table::Sizes;

// A coil becomes 1 for power and 0 for none; number 0 names none.
#[tactic(auto, using(crate::proofs::Coils::no_coil, crate::proofs::Coils::coil_stored))]
pub(crate) fn put_coil(table: &mut [u16], sizes: Sizes, number: u16, on: bool)
    requires area { sizes.coils ≤ length table.old }
    requires reference { number ≤ 16 * sizes.coils }
    ensures { table.new ≡ coil_put (areas_only sizes) number on table.old }
{
    if let Some(i) = number.checked_sub(1) {
        let at = (i / 16) as usize;
        table[at] = bits::put_bit(table[at], i % 16 + 1, on);
    }
}
