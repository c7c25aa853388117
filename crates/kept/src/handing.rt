// What a call hands over and leaves: its number, its value, and what it moved of the device.
ghost use Rattle.std.specs.Prelude.{◌≡◌, true, length, IfOk, OnErr};
ghost use Rattle.common.specs.Refusals.{is_refusal, number_in};
ghost use Rattle.kept.specs.State.{state_size, state_bytes, device_in, is_state, counted, advanced, transferred};
ghost use Rattle.kept.specs.Handing.{left, Left, message};

use crate::state;
use buffer::Send;
use common::Ring;
use common::refusals::Refusal;
use device::Device;
use ids::Header;
use layout::{parts, words};
use messages::Message;
use queue::Receive;

// The refusals are the numbers 1 to 99.
#[tactic(auto, unfolding(common::specs::Refusals::is_refusal))]
fn is_refusal(number: u32) -> bool
    ensures { result ≡ is_refusal number }
{
    1 <= number && number <= 99
}

// The number of a call that answers no value.
pub fn number(answer: Result<(), Refusal>) -> u32
    ensures { result ≡ number_in answer }
{
    match answer {
        Ok(()) => 0,
        Err(refusal) => refusal.number(),
    }
}

// Hands a value back, unless the call was refused.
pub fn hand<T: Copy>(place: &mut T, number: u32, value: T)
    ensures { place.new ≡ left number place.old value }
{
    if !is_refusal(number) {
        *place = value;
    }
}

// Hands an answer's value back, if it has one; answers its number.
#[tactic(auto, using(crate::proofs::Laws::zero_left))]
pub fn hand_answer<T: Copy>(place: &mut T, answer: Result<T, Refusal>) -> u32
    ensures number { result ≡ number_in answer }
    ensures value { IfOk answer (λ v. place.new ≡ v) }
    ensures kept { OnErr answer (place.new ≡ place.old) }
{
    match answer {
        Ok(value) => {
            hand(place, 0, value);
            0
        }
        Err(refusal) => refusal.number(),
    }
}

// Leaves the whole device, unless the call was refused; answers the call's number.
pub fn leave(state: &mut [u8], number: u32, d: Device) -> u32
    requires { length state.old ≡ state_size }
    ensures { Left number d state.old result state.new }
{
    if !is_refusal(number) {
        state::write_state(state, d);
    }
    number
}

// The same by the answer of a call that answers no value.
pub fn leave_answer(state: &mut [u8], d: Device, answer: Result<(), Refusal>) -> u32
    requires { length state.old ≡ state_size }
    ensures { Left (number_in answer) d state.old result state.new }
{
    leave(state, number(answer), d)
}

// Leaves what a raise can change, unless it was refused: count and pending of the queue.
#[tactic(auto, using(crate::proofs::Laws::state_long, crate::proofs::Laws::counted_written))]
pub fn leave_counted(state: &mut [u8], number: u32, count: u32, pending: u32) -> u32
    requires { is_state state.old ≡ true }
    ensures { Left number (counted (device_in state.old) count pending) state.old result state.new }
{
    if !is_refusal(number) {
        words::write_two(state, state::RECEIVE + 24, count, pending);
    }
    number
}

// Keeps these of a queue after a raise that was not refused.
#[tactic(auto, using(crate::proofs::Laws::zero_left))]
pub fn keep_counted(state: &mut [u8], r: Receive)
    requires { is_state state.old ≡ true }
    ensures { state.new ≡ state_bytes (counted (device_in state.old) r.ring.count r.pending) }
{
    leave_counted(state, 0, r.ring.count, r.pending);
}

// Leaves what a read can change, unless it was refused: first and count of the queue.
#[tactic(auto, using(crate::proofs::Laws::state_long, crate::proofs::Laws::advanced_written))]
pub fn leave_advanced(state: &mut [u8], number: u32, first: u32, count: u32) -> u32
    requires { is_state state.old ≡ true }
    ensures { Left number (advanced (device_in state.old) first count) state.old result state.new }
{
    if !is_refusal(number) {
        words::write_two(state, state::RECEIVE + 20, first, count);
    }
    number
}

// Keeps these of a ring after a read that was not refused.
#[tactic(auto, using(crate::proofs::Laws::zero_left))]
pub fn keep_advanced(state: &mut [u8], ring: Ring)
    requires { is_state state.old ≡ true }
    ensures { state.new ≡ state_bytes (advanced (device_in state.old) ring.first ring.count) }
{
    leave_advanced(state, 0, ring.first, ring.count);
}

// Leaves what take, done and abort can change, unless refused: count and pending of the queue; first, count and
// register of the send channel.
#[tactic(auto, using(crate::proofs::Laws::state_long, crate::proofs::Laws::transferred_written))]
pub fn leave_transferred(state: &mut [u8], number: u32, count: u32, pending: u32, s: Send) -> u32
    requires { is_state state.old ≡ true }
    ensures { Left number (transferred (counted (device_in state.old) count pending) s) state.old result state.new }
{
    if !is_refusal(number) {
        words::write_two(state, state::RECEIVE + 24, count, pending);
        words::write_two(state, state::SEND + 8, s.ring.first, s.ring.count);
        parts::write_register(state, state::SEND + 16, s.held, s.message);
    }
    number
}

// Keeps these of both channels after one of these calls that was not refused.
#[tactic(auto, using(crate::proofs::Laws::zero_left))]
pub fn keep_transferred(state: &mut [u8], r: Receive, s: Send)
    requires { is_state state.old ≡ true }
    ensures { state.new ≡ state_bytes (transferred (counted (device_in state.old) r.ring.count r.pending) s) }
{
    leave_transferred(state, 0, r.ring.count, r.pending, s);
}

// A message as a call is given it.
pub fn message(id: u32, format: u32, rtr: u32, dlc: u32, bytes: &[u8; 8]) -> Message
    ensures { result ≡ message id format rtr dlc bytes.now }
{
    let header = Header {
        id,
        format,
        rtr,
        dlc,
    };
    Message {
        header,
        bytes: *bytes,
    }
}
