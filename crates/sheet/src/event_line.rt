// The event text and its room, as request M-106 changed them: two fields more, the site's, here zero.
use crate::{queueing, setting};
use common::refusals::Refusal;
use event_text::printing::ROOM;
use events::Raise;
use events::records::EVENT;
use recorder::receiving;

// The number of a read into a room: its refusal, or 0.
fn write_room(rt: &impl Print, said: &[u8], read: Result<usize, Refusal>) {
    show::words::says(rt, said);
    show::write_number(rt, read.map_or_else(Refusal::number, |_| 0));
    show::end_line(rt);
}

// One event kept and five lost, so that the event behind them has lost 5.
pub fn cases(rt: &impl Print) -> Result<(), Refusal> {
    let mut queue = [0; EVENT];
    let mut d = queueing::play(rt, b"123456-", false, &mut queue)?;
    let event = Raise {
        code: 1,
        tick: 12568,
        frame: setting::frame(0x112, 1, 0, [0; 2]),
    };
    receiving::raise(&mut d, event, &mut queue)?;
    let short = receiving::read_text(&mut d, &queue, &mut [0; ROOM - 1]);
    write_room(rt, b"Room 102 refused (M-106)", short);
    let mut room = [0; ROOM];
    let good = receiving::read_text(&mut d, &queue, &mut room);
    write_room(rt, b"103 good", good);
    show::words::says(
        rt,
        b"`received` TAB `0:12568` TAB `+00:00` TAB `0` TAB `00000112` TAB `1` TAB `0` TAB `5` LF",
    );
    show::write_front(rt, &room, good.unwrap_or(0));
    Ok(())
}
