// The transmit register: take, done and abort. The receive side is judged, the rest is the outbox's;
// the event that it raises is carried to the queue.
ghost use Rattle.std.specs.Prelude.{◌≡◌, true, [], IfOk};
ghost use Rattle.common.specs.Refusals.{number_in};
ghost use Rattle.queue.specs.Channel.{usable};
ghost use Rattle.device.specs.Outcomes.{Outcome, lends};
ghost use Rattle.recorder.specs.Outcomes.{QueueMet};
ghost use Rattle.recorder.specs.Register.{Carried, carried_past, taken, finished, aborted};

use common::refusals::Refusal;
use device::Device;
use events::Raise;
use messages::records::MESSAGE;

// Carries the event that a call raised, if any, to the queue; only code 1 would meet the filter.
fn carry(d: &mut Device, event: Option<Raise>, queue: &mut [u8])
    requires { usable d.old.receive queue.old ≡ true }
    ensures { Carried d.old (carried_past event d.old.shared.site d.old.receive queue.old) d.new queue.new }
{
    if let Some(event) = event {
        d.receive.past_filter(d.shared.site, event, queue);
    }
}

// Moves the oldest message to the register.
#[tactic(auto, unfolding(crate::specs::Register::taken))]
pub fn take(
    d: &mut Device,
    tick: u32,
    send: &[u8],
    queue: &mut [u8],
) -> Result<[u8; MESSAGE], Refusal>
    ensures met { QueueMet (taken tick d.old (lends queue.old send.now [])) (number_in result) d.new queue.new }
    ensures bytes { let o : Outcome = taken tick d.old (lends queue.old send.now []) in
        IfOk result (λ b. b ≡ o.bytes) }
{
    if !d.receive_ready(queue.len()) {
        return Err(Refusal::NotPossible);
    }
    let taken = outbox::calls::take(d.shared, &mut d.send, tick, send)?;
    carry(d, taken.raised, queue);
    Ok(taken.bytes)
}

// Empties the register: its message was transmitted.
#[tactic(auto, unfolding(crate::specs::Register::finished))]
pub fn done(d: &mut Device, tick: u32, queue: &mut [u8]) -> Result<(), Refusal>
    ensures { QueueMet (finished tick d.old (lends queue.old [] [])) (number_in result) d.new queue.new }
{
    if !d.receive_ready(queue.len()) {
        return Err(Refusal::NotPossible);
    }
    let raised = outbox::calls::done(d.shared, &mut d.send, tick)?;
    carry(d, raised, queue);
    Ok(())
}

// Empties the register, aborting its message, and purges the buffer: answers how many were purged.
#[tactic(auto, unfolding(crate::specs::Register::aborted))]
pub fn abort(d: &mut Device, tick: u32, queue: &mut [u8]) -> Result<u32, Refusal>
    ensures met { QueueMet (aborted tick d.old (lends queue.old [] [])) (number_in result) d.new queue.new }
    ensures purged { let o : Outcome = aborted tick d.old (lends queue.old [] []) in IfOk result (λ n. n ≡ o.value) }
{
    if !d.receive_ready(queue.len()) {
        return Err(Refusal::NotPossible);
    }
    let aborted = outbox::calls::abort(d.shared, &mut d.send, tick)?;
    carry(d, aborted.raised, queue);
    Ok(aborted.purged)
}
