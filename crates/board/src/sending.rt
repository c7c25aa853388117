// Sending a message, binary or as text.
ghost use Rattle.std.specs.Prelude.{[], ◌≡◌};
ghost use Rattle.device.specs.Outcomes.{Outcome, lends};
ghost use Rattle.model.specs.Outbox as Outbox;
ghost use Rattle.model.specs.Box.{on_send};
ghost use Rattle.kept.specs.Handing.{message};
ghost use Rattle.board.specs.Board.{called, Called};

use common::refusals::Refusal;
use kept::changing::change;
use recorder::sending;

// Sends a message given in binary.
#[unsafe(no_mangle)]
pub extern "C" fn sv_send(
    state: &mut [u8],
    id: u32,
    format: u32,
    rtr: u32,
    dlc: u32,
    bytes: &[u8; 8],
    send: &mut [u8],
) -> u32
    ensures { let o : Outcome = called (on_send (Outbox.send (message id format rtr dlc bytes.now)))
        state.old (lends [] send.old []) in
        Called o state.old result state.new (lends [] send.new []) }
{
    let m = kept::handing::message(id, format, rtr, dlc, bytes);
    change(state, send, |d, table| sending::send(d, m, table))
}

// Sends the message at the front of a text; the bytes used are answered at every call.
#[unsafe(no_mangle)]
pub extern "C" fn sv_send_text(
    state: &mut [u8],
    text: &[u8],
    send: &mut [u8],
    used: &mut usize,
) -> u32
    ensures { let o : Outcome = called (on_send (Outbox.send_text text.now)) state.old
        (lends [] send.old []) in
        Called o state.old result state.new (lends [] send.new [])
        × (used.new ≡ o.value) }
{
    let Some(mut d) = kept::state::state_device(state) else {
        *used = 0;
        return Refusal::NotPossible.number();
    };
    let text = sending::send_text(&mut d, text, send);
    *used = text.used;
    kept::handing::leave_answer(state, d, text.sent)
}
