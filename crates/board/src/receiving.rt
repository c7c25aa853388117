// Raising, reading and looking.
ghost use Rattle.std.specs.Prelude.{◌≡◌, []};
ghost use Rattle.inbox.specs.Calls.{looked_at};
ghost use Rattle.device.specs.Outcomes.{Outcome, lends};
ghost use Rattle.model.specs.Inbox.{read_record, read_text, look, identifiers_through};
ghost use Rattle.model.specs.Box.{on_device, on_receive, raise};
ghost use Rattle.kept.specs.State.{device_in};
ghost use Rattle.kept.specs.Handing.{message};
ghost use Rattle.board.specs.Board.{called, Called, CalledWith};

use common::refusals::Refusal;
use events::Raise;
use events::records::EVENT;

// Raises an event; the state is judged where it stands, so the inbox need not judge it again.
#[unsafe(no_mangle)]
pub extern "C" fn sv_raise(
    state: &mut [u8],
    code: u32,
    tick: u32,
    id: u32,
    format: u32,
    rtr: u32,
    dlc: u32,
    bytes: &[u8; 8],
    queue: &mut [u8],
) -> u32
    ensures { let o : Outcome = called (on_device (raise code tick (message id format rtr dlc bytes.now)))
        state.old (lends queue.old [] []) in
        Called o state.old result state.new (lends queue.new [] []) }
{
    let Some(mut d) = kept::state::possible_device_in(state) else {
        return Refusal::NotPossible.number();
    };
    let frame = kept::handing::message(id, format, rtr, dlc, bytes);
    let event = Raise { code, tick, frame };
    match inbox::raising::raise_possible(d.shared, &mut d.receive, event, queue) {
        Err(refusal) => refusal.number(),
        Ok(met) => {
            kept::handing::keep_counted(state, d.receive);
            met.number()
        }
    }
}

// Reads the oldest event as its bytes.
#[unsafe(no_mangle)]
pub extern "C" fn sv_read_record(state: &mut [u8], queue: &[u8], out: &mut [u8; EVENT]) -> u32
    ensures { let o : Outcome = called (on_receive read_record) state.old (lends queue.now [] []) in
        CalledWith o state.old out.old o.bytes result state.new
        (lends queue.now [] []) out.new }
{
    let Some(mut d) = kept::state::state_device(state) else {
        return Refusal::NotPossible.number();
    };
    match recorder::receiving::read_record(&mut d, queue) {
        Err(refusal) => refusal.number(),
        Ok(event) => {
            *out = event;
            kept::handing::keep_advanced(state, d.receive.ring);
            0
        }
    }
}

// Reads the oldest event as text.
#[unsafe(no_mangle)]
pub extern "C" fn sv_read_text(
    state: &mut [u8],
    queue: &[u8],
    out: &mut [u8],
    length: &mut usize,
) -> u32
    ensures { let o : Outcome = called (on_receive read_text) state.old
        (lends queue.now [] out.old) in
        CalledWith o state.old length.old o.value result state.new
        (lends queue.now [] out.new) length.new }
{
    let Some(mut d) = kept::state::state_device(state) else {
        return Refusal::NotPossible.number();
    };
    match recorder::receiving::read_text(&mut d, queue, out) {
        Err(refusal) => refusal.number(),
        Ok(n) => {
            *length = n;
            kept::handing::keep_advanced(state, d.receive.ring);
            0
        }
    }
}

// The number of a look at position p.
#[unsafe(no_mangle)]
pub extern "C" fn sv_look_number(state: &[u8], queue: &[u8], p: u32) -> u32
    ensures { let o : Outcome = called (on_receive (look p)) state.now (lends queue.now [] []) in
        Called o state.now result state.now (lends queue.now [] []) }
{
    let Some(d) = kept::state::state_device(state) else {
        return Refusal::NotPossible.number();
    };
    kept::handing::number(recorder::receiving::check_look(d, queue, p))
}

// A look at position p: where the slot begins in the caller's own table.
#[unsafe(no_mangle)]
pub extern "C" fn sv_look(state: &[u8], queue: &[u8], p: u32, offset: &mut usize) -> u32
    ensures { let o : Outcome = called (on_receive (look p)) state.now (lends queue.now [] []) in
        CalledWith o state.now offset.old
        (looked_at (device_in state.now).receive queue.now p) result state.now
        (lends queue.now [] []) offset.new }
{
    let Some(d) = kept::state::state_device(state) else {
        return Refusal::NotPossible.number();
    };
    if let Err(refusal) = recorder::receiving::check_look(d, queue, p) {
        return refusal.number();
    }
    *offset = d.receive.ring.place::<EVENT>(p);
    0
}

// How many identifiers of a format the filter lets through.
#[unsafe(no_mangle)]
pub extern "C" fn sv_identifiers_through(state: &[u8], format: u32, count: &mut u32) -> u32
    ensures { let o : Outcome = called (on_receive (identifiers_through format)) state.now (lends [] [] []) in
        CalledWith o state.now count.old o.value result state.now (lends [] [] [])
        count.new }
{
    let Some(d) = kept::state::state_device(state) else {
        return Refusal::NotPossible.number();
    };
    let through = recorder::receiving::identifiers_through(d, format);
    kept::handing::hand_answer(count, through)
}
