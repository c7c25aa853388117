// The whole state: the device that it stands for, if it is one; is that device possible; and writing a device.
ghost use Rattle.std.specs.Prelude.{◌≡◌, length, Some, None};
ghost use Rattle.common.specs.Choice.{pick};
ghost use Rattle.kept.specs.State.{state_size, state_bytes, device_in, is_state, is_possible};

use device::Device;
use layout::{judging, parts, words};

// The bytes of a state, and where its second and third part begin.
pub const STATE: usize = 100;

pub const RECEIVE: usize = 24;

pub const SEND: usize = 56;

// The bytes are a state: as many, and the register is held or not.
#[tactic(auto, unfolding(crate::specs::State::is_state))]
pub fn is_state(s: &[u8]) -> bool
    ensures { result ≡ is_state s.now }
{
    s.len() == STATE && words::word(s, SEND + 16) <= 1
}

// The bytes are a state whose device is possible, each part judged in place.
#[tactic(auto, unfolding(crate::specs::State::is_possible, crate::specs::State::is_state, crate::specs::State::device_in, device::specs::State::good, buffer::specs::Channel::good_send))]
pub fn is_possible(s: &[u8]) -> bool
    ensures { result ≡ is_possible s.now }
{
    s.len() == STATE
        && judging::is_shared(s, 0)
        && judging::is_receive(s, RECEIVE)
        && judging::is_buffer(s, SEND)
        && judging::is_register(s, SEND + 16)
}

// The device that so many bytes stand for, whether they are a state or not.
#[tactic(auto, unfolding(crate::specs::State::device_in))]
pub fn device_in(s: &[u8]) -> Device
    requires { length s.now ≡ state_size }
    ensures { result ≡ device_in s.now }
{
    Device {
        shared: parts::shared_in(s, 0),
        receive: parts::receive_in(s, RECEIVE),
        send: parts::send_in(s, SEND),
    }
}

// The device of a state; none where the bytes are no state.
#[tactic(auto, using(crate::proofs::Laws::state_long))]
pub fn state_device(s: &[u8]) -> Option<Device>
    ensures { result ≡ pick (is_state s.now) (Some (device_in s.now)) None }
{
    if !is_state(s) {
        return None;
    }
    Some(device_in(s))
}

// The device of a state that is possible, judged in place for the raise.
#[tactic(auto, using(crate::proofs::Judged::possible_state, crate::proofs::Laws::state_long))]
pub fn possible_device_in(s: &[u8]) -> Option<Device>
    ensures { result ≡ pick (is_possible s.now) (Some (device_in s.now)) None }
{
    if !is_possible(s) {
        return None;
    }
    Some(device_in(s))
}

// Writes the device into the state.
pub fn write_state(s: &mut [u8], d: Device)
    requires { length s.old ≡ state_size }
    ensures { s.new ≡ state_bytes d }
{
    parts::write_shared(s, 0, d.shared);
    parts::write_receive(s, RECEIVE, d.receive);
    parts::write_send(s, SEND, d.send);
}
