// The transmit register: take, done and abort.
ghost use Rattle.std.specs.Prelude.{[]};
ghost use Rattle.device.specs.Outcomes.{Outcome, lends};
ghost use Rattle.model.specs.Outbox.{take, done, abort};
ghost use Rattle.model.specs.Box.{on_send};
ghost use Rattle.board.specs.Board.{called, Called, CalledWith};

use common::refusals::Refusal;
use messages::records::MESSAGE;

// Moves the oldest message to the register and hands its bytes back.
#[unsafe(no_mangle)]
pub extern "C" fn sv_take(
    state: &mut [u8],
    tick: u32,
    send: &[u8],
    queue: &mut [u8],
    out: &mut [u8; MESSAGE],
) -> u32
    ensures { let o : Outcome = called (on_send (take tick)) state.old
        (lends queue.old send.now []) in
        CalledWith o state.old out.old o.bytes result state.new
        (lends queue.new send.now []) out.new }
{
    let Some(mut d) = kept::state::state_device(state) else {
        return Refusal::NotPossible.number();
    };
    match recorder::register::take(&mut d, tick, send, queue) {
        Err(refusal) => refusal.number(),
        Ok(message) => {
            *out = message;
            kept::handing::keep_transferred(state, d.receive, d.send);
            0
        }
    }
}

// Empties the register: its message was transmitted.
#[unsafe(no_mangle)]
pub extern "C" fn sv_done(state: &mut [u8], tick: u32, queue: &mut [u8]) -> u32
    ensures { let o : Outcome = called (on_send (done tick)) state.old (lends queue.old [] []) in
        Called o state.old result state.new (lends queue.new [] []) }
{
    let Some(mut d) = kept::state::state_device(state) else {
        return Refusal::NotPossible.number();
    };
    match recorder::register::done(&mut d, tick, queue) {
        Err(refusal) => refusal.number(),
        Ok(()) => {
            kept::handing::keep_transferred(state, d.receive, d.send);
            0
        }
    }
}

// Empties the register and purges the buffer; hands back how many were purged.
#[unsafe(no_mangle)]
pub extern "C" fn sv_abort(state: &mut [u8], tick: u32, queue: &mut [u8], purged: &mut u32) -> u32
    ensures { let o : Outcome = called (on_send (abort tick)) state.old (lends queue.old [] []) in
        CalledWith o state.old purged.old o.value result state.new
        (lends queue.new [] []) purged.new }
{
    let Some(mut d) = kept::state::state_device(state) else {
        return Refusal::NotPossible.number();
    };
    match recorder::register::abort(&mut d, tick, queue) {
        Err(refusal) => refusal.number(),
        Ok(count) => {
            *purged = count;
            kept::handing::keep_transferred(state, d.receive, d.send);
            0
        }
    }
}
