// The calls that leave the whole device and hand no value back.
ghost use Rattle.std.specs.Prelude.{◌≡◌, true, false};
ghost use Rattle.common.specs.Refusals.{number_in};
ghost use Rattle.kept.specs.State.{is_state, device_in};
ghost use Rattle.kept.specs.Handing.{Left};

use crate::{handing, state};
use common::refusals::Refusal;
use device::Device;

// Makes a call on the device of a state and a lent table, and leaves the device unless it was refused.
// Bytes that are no state are refused, and the call is not made.
#[tactic(auto, using(crate::proofs::Laws::state_long))]
pub fn change<F: FnOnce(&mut Device, &mut [u8]) -> Result<(), Refusal>>(
    state: &mut [u8],
    table: &mut [u8],
    call: F,
) -> u32
    requires { F.IsAlwaysCallable call }
    ensures none { is_state state.old ≡ false → (result ≡ 2) × (state.new ≡ state.old) × (table.new ≡ table.old) }
    ensures some { is_state state.old ≡ true → (r : _) × (d : _) × (t : _) × (e : _) × (u : _)
        × F.post call d t r e u
        × (d.now ≡ device_in state.old) × (t.now ≡ table.old) × (u.now ≡ table.new)
        × Left (number_in r) e.now state.old result state.new }
{
    let Some(mut d) = state::state_device(state) else {
        return Refusal::NotPossible.number();
    };
    let set = call(&mut d, table);
    handing::leave_answer(state, d, set)
}
