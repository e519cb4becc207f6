// One block of a checked network, on a table of exactly its areas.
ghost use Rattle.std.specs.Prelude.{◌≡◌};
ghost use Rattle.network.specs.Network.{areas_only};
ghost use Rattle.blocks.specs.Work.{block_outputs, block_table};
ghost use Rattle.kinds.specs.Call.{work_answer, work_table};
ghost use Rattle.scan.specs.Inner.{Ready};

use crate::coil::put_coil;
use blocks::{Located, Outputs, Power};
use table::Sizes;

// The block's work, without its coils. A block that is refused shows nothing.
fn work(table: &mut [u16], one: Located, on: Power) -> Outputs
    ensures outputs { result ≡ (work_answer one table.old on).outputs }
    ensures table { table.new ≡ work_table one table.old on }
{
    kinds::work(table, one, on).unwrap_or(Outputs::plain(false, false, false))
}

// The block's work, then its coils, top, middle, bottom, also when the top input has no power.
#[tactic(auto, using(crate::proofs::Blocks::outputs_shown, crate::proofs::Blocks::table_left))]
pub(crate) fn run(table: &mut [u16], sizes: Sizes, one: Located, on: Power) -> Outputs
    requires { Ready (areas_only sizes) one table.old }
    ensures outputs { result ≡ block_outputs (areas_only sizes) one.block table.old on }
    ensures table { table.new ≡ block_table (areas_only sizes) one.block table.old on }
{
    let outputs = work(table, one, on);
    let coils = one.block.coils;
    put_coil(table, sizes, coils.top, outputs.top);
    put_coil(table, sizes, coils.middle, outputs.middle);
    put_coil(table, sizes, coils.bottom, outputs.bottom);
    outputs
}
