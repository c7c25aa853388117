// Changes of setting.
ghost use Rattle.std.specs.Prelude.{[]};
ghost use Rattle.device.specs.Outcomes.{Outcome, lends};
ghost use Rattle.model.specs.Inbox.{set_filter, set_event_mask};
ghost use Rattle.model.specs.Box.{on_device, on_receive, set_mode, set_format, set_site};
ghost use Rattle.board.specs.Board.{called, Called};

use kept::changing::change;
use recorder::changes;
use sites::Site;

// Sets the mode.
#[unsafe(no_mangle)]
pub extern "C" fn sv_set_mode(state: &mut [u8], mode: u32, tick: u32, queue: &mut [u8]) -> u32
    ensures { let o : Outcome = called (on_device (set_mode mode tick)) state.old
        (lends queue.old [] []) in
        Called o state.old result state.new (lends queue.new [] []) }
{
    change(state, queue, |d, q| changes::set_mode(d, mode, tick, q))
}

// Sets the default format.
#[unsafe(no_mangle)]
pub extern "C" fn sv_set_format(state: &mut [u8], format: u32, tick: u32, queue: &mut [u8]) -> u32
    ensures { let o : Outcome = called (on_device (set_format format tick)) state.old
        (lends queue.old [] []) in
        Called o state.old result state.new (lends queue.new [] []) }
{
    change(state, queue, |d, q| changes::set_format(d, format, tick, q))
}

// Sets the site of later events; its offset is a 32-bit number in two's complement.
#[unsafe(no_mangle)]
pub extern "C" fn sv_set_site(state: &mut [u8], offset: u32, second: u64) -> u32
    ensures { let o : Outcome = called (on_device (set_site (record { offset = offset; second = second }))) state.old
        (lends [] [] []) in
        Called o state.old result state.new (lends [] [] []) }
{
    let site = Site { offset, second };
    change(state, &mut [], |d, _| changes::set_site(d, site))
}

// Sets code and mask of the filter.
#[unsafe(no_mangle)]
pub extern "C" fn sv_set_filter(state: &mut [u8], code: u32, mask: u32) -> u32
    ensures { let o : Outcome = called (on_receive (set_filter code mask)) state.old (lends [] [] []) in
        Called o state.old result state.new (lends [] [] []) }
{
    change(state, &mut [], |d, _| changes::set_filter(d, code, mask))
}

// Sets the event mask.
#[unsafe(no_mangle)]
pub extern "C" fn sv_set_event_mask(state: &mut [u8], events: u32) -> u32
    ensures { let o : Outcome = called (on_receive (set_event_mask events)) state.old (lends [] [] []) in
        Called o state.old result state.new (lends [] [] []) }
{
    change(state, &mut [], |d, _| changes::set_event_mask(d, events))
}
