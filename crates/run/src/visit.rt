// The visit of a block: the power on its inputs, its work, its coils, its outputs packed into their place in the state; and its pointer.
ghost use Rattle.std.specs.Prelude.{◌≡◌, length};
ghost use Rattle.network.specs.Network.{Network};
ghost use Rattle.plan.specs.Seen.{sees, look_inside, spot_put, spot_inside};
ghost use Rattle.run.specs.Inner.{power_seen, power_read, work_outputs, work_state, spots_put, shown_at, place_inside, Looking, Working, AllSpotted, Planned, Visitable, Visits};

use blocks::{Outputs, Power};
use kinds::{Place, Work};
use plan::{Look, Output, Spot, Step};

// Whether a look sees power, in a state whose table has so many words.
#[inline(always)]
fn sees(state: &[u16], size: usize, look: &Look) -> bool
    requires { look_inside (length state.now) size look.now }
    ensures { result ≡ sees state.now size look.now }
{
    match look {
        Look::Fixed(on) => *on,
        Look::Contact { at, mask, wanted } => state[*at as usize] & *mask == *wanted,
        Look::Earlier { block, output } => {
            let word = state[size + *block as usize];
            match output {
                Output::Top => word & 1 == 1,
                Output::Middle => word & 2 == 2,
                Output::Bottom => word & 4 == 4,
            }
        }
    }
}

// The power on the inputs that a block's work reads.
fn power(state: &[u16], size: usize, step: &Step) -> Power
    requires { Looking step.now (length state.now) size }
    ensures { result ≡ power_read step.now.work (power_seen state.now size step.now) }
{
    let top = sees(state, size, &step.inputs[0]);
    match &step.work {
        Work::Combine { .. } => Power {
            top,
            middle: false,
            bottom: false,
        },
        Work::Compare { .. } => Power {
            top,
            middle: sees(state, size, &step.inputs[1]),
            bottom: false,
        },
        Work::Modify { .. } | Work::Sense { .. } | Work::Rotate { .. } | Work::Unknown => Power {
            top,
            middle: sees(state, size, &step.inputs[1]),
            bottom: sees(state, size, &step.inputs[2]),
        },
    }
}

// A coil's spot, if it has one, put on or off.
#[inline(always)]
fn put_spot(state: &mut [u16], spot: &Option<Spot>, on: bool)
    requires { spot_inside (length state.old) spot.now }
    ensures { state.new ≡ spot_put state.old spot.now on }
{
    if let Some(spot) = spot {
        let at = spot.at as usize;
        if on {
            state[at] |= spot.mask;
        } else {
            state[at] &= !spot.mask;
        }
    }
}

// The step's work on the table, which is the state's first words: its outputs.
#[tactic(auto, using(crate::proofs::Following::outputs_said))]
fn work(state: &mut [u16], size: usize, step: &Step) -> Outputs
    requires { Working step.now (length state.old) size }
    ensures answer { result ≡ work_outputs state.old size step.now }
    ensures state { state.new ≡ work_state state.old size step.now }
{
    let on = power(state, size, step);
    kinds::perform(&mut state[..size], &step.work, step.n, on).unwrap_or(Outputs::plain(
        false, false, false,
    ))
}

// Its coils, top, middle, bottom.
fn put_spots(state: &mut [u16], step: &Step, out: Outputs)
    requires { AllSpotted step.now (length state.old) }
    ensures { state.new ≡ spots_put state.old step.now out }
{
    put_spot(state, &step.coils[0], out.top);
    put_spot(state, &step.coils[1], out.middle);
    put_spot(state, &step.coils[2], out.bottom);
}

// A pointer: the constant, or its register's content.
pub(crate) fn shown(state: &[u16], place: &Place) -> u16
    requires { place_inside (length state.now) place.now }
    ensures { result ≡ shown_at state.now place.now }
{
    match place {
        Place::Constant(value) => *value,
        Place::Input(at) | Place::Holding(at) => state[*at],
    }
}

// The visit of the block after the first k, on a state whose table has so many words: its outputs.
pub(crate) fn visit(state: &mut [u16], size: usize, step: &Step, k: usize) -> Outputs
    requires { Visitable k state.old step.now size }
    ensures { (net : Network) → Planned net k state.old step.now size → Visits net k state.old result state.new }
{
    let out = work(state, size, step);
    put_spots(state, step, out);
    state[size + k] = blocks::packed(out);
    out
}
