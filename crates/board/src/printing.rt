// The print calls: they take Align from the channel and change no state.
ghost use Rattle.std.specs.Prelude.{[]};
ghost use Rattle.device.specs.Outcomes.{Outcome, lends};
ghost use Rattle.model.specs.Box.{on_align, print_message_record, print_event_record, print_message};
ghost use Rattle.kept.specs.Handing.{message};
ghost use Rattle.board.specs.Board.{called, CalledWith};

use common::refusals::Refusal;

// Prints a message record.
#[unsafe(no_mangle)]
pub extern "C" fn sv_print_message_record(
    state: &[u8],
    s: &[u8],
    out: &mut [u8],
    length: &mut usize,
) -> u32
    ensures { let o : Outcome = called (on_align (print_message_record s.now)) state.now
        (lends [] [] out.old) in
        CalledWith o state.now length.old o.value result state.now
        (lends [] [] out.new) length.new }
{
    let Some(d) = kept::state::state_device(state) else {
        return Refusal::NotPossible.number();
    };
    let printed = recorder::printing::print_message_record(d, s, out);
    kept::handing::hand_answer(length, printed)
}

// Prints an event record.
#[unsafe(no_mangle)]
pub extern "C" fn sv_print_event_record(
    state: &[u8],
    s: &[u8],
    out: &mut [u8],
    length: &mut usize,
) -> u32
    ensures { let o : Outcome = called (on_align (print_event_record s.now)) state.now
        (lends [] [] out.old) in
        CalledWith o state.now length.old o.value result state.now
        (lends [] [] out.new) length.new }
{
    let Some(d) = kept::state::state_device(state) else {
        return Refusal::NotPossible.number();
    };
    let printed = recorder::printing::print_event_record(d, s, out);
    kept::handing::hand_answer(length, printed)
}

// Prints a message given alone: raw identifier, either mode.
#[unsafe(no_mangle)]
pub extern "C" fn sv_print_message(
    state: &[u8],
    id: u32,
    format: u32,
    rtr: u32,
    dlc: u32,
    bytes: &[u8; 8],
    out: &mut [u8],
    length: &mut usize,
) -> u32
    ensures { let o : Outcome = called (on_align (print_message (message id format rtr dlc bytes.now)))
        state.now (lends [] [] out.old) in
        CalledWith o state.now length.old o.value result state.now
        (lends [] [] out.new) length.new }
{
    let Some(d) = kept::state::state_device(state) else {
        return Refusal::NotPossible.number();
    };
    let m = kept::handing::message(id, format, rtr, dlc, bytes);
    let printed = recorder::printing::print_message(d, m, out);
    kept::handing::hand_answer(length, printed)
}
