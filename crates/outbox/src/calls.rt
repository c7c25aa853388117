// Every call on a send channel: its refusal, or its effect.
ghost use Rattle.std.specs.Prelude.{◌≡◌, [], IfOk};
ghost use Rattle.common.specs.Refusals.{number_in, Answers};
ghost use Rattle.outbox.specs.Calls.{Outcome, Leaves, Writes, sent, text_sent, taken, finished, aborted};

use crate::{Aborted, Taken, TextSent, checks};
use buffer::Send;
use common::refusals::Refusal;
use events::Raise;
use message_text::Said;
use messages::Message;
use settings::{Shared, txmode};

// Sends a message given in binary: format 0, 1 or 2, aligned identifier.
#[tactic(auto, unfolding(crate::specs::Calls::sent, crate::specs::Refusals::put_refusal), using(crate::proofs::Laws::judged))]
pub fn send(h: Shared, s: &mut Send, m: Message, table: &mut [u8]) -> Result<(), Refusal>
    ensures { Writes (sent h s.old m table.old) (number_in result) s.new table.new }
{
    checks::check_ready(h, *s, table.len())?;
    let kept = h.bring(m)?;
    checks::check_room(*s)?;
    s.put(kept, table);
    Ok(())
}

// Sends the message at the front of a text, in the default format; beside 2 and 5 no byte is used.
#[tactic(auto, unfolding(crate::specs::Calls::text_sent, crate::specs::Refusals::put_refusal), using(crate::proofs::Laws::judged, crate::proofs::Laws::text_not_2))]
pub fn send_text(h: Shared, s: &mut Send, text: &[u8], table: &mut [u8]) -> TextSent
    ensures write { Writes (text_sent h s.old text.now table.old) (number_in result.sent) s.new table.new }
    ensures used { let o : Outcome = text_sent h s.old text.now table.old in result.used ≡ o.value }
{
    if let Err(why) = checks::check_ready(h, *s, table.len()) {
        return TextSent {
            used: 0,
            sent: Err(why),
        };
    }
    let format = h.format_of(h.format);
    let Said { said, used } = message_text::reading::read_message(h.align, format, text);
    let Ok(message) = said else {
        return TextSent {
            used,
            sent: said.and(Ok(())),
        };
    };
    if let Err(why) = checks::check_room(*s) {
        return TextSent {
            used: 0,
            sent: Err(why),
        };
    }
    s.put(message, table);
    TextSent { used, sent: Ok(()) }
}

// Moves the oldest message to the register.
#[tactic(auto, unfolding(crate::specs::Calls::taken), using(crate::proofs::Laws::may_take))]
pub fn take(h: Shared, s: &mut Send, tick: u32, table: &[u8]) -> Result<Taken, Refusal>
    ensures leaves { Leaves (taken h s.old tick table.now) (number_in result) s.new }
    ensures bytes { let o : Outcome = taken h s.old tick table.now in IfOk result (λ t. t.bytes ≡ o.bytes) }
    ensures raised { let o : Outcome = taken h s.old tick table.now in IfOk result (λ t. t.raised ≡ o.raised) }
{
    let frame = checks::find_oldest(h, *s, table)?;
    s.take(frame);
    let raised = txmode::raises_at_take(s.tx).then_some(Raise {
        code: 2,
        tick,
        frame,
    });
    Ok(Taken {
        bytes: frame.record(),
        raised,
    })
}

// Empties the register, whose message was transmitted: answers the event that is raised.
#[tactic(auto, unfolding(crate::specs::Calls::finished, crate::specs::Refusals::done_refusal, crate::specs::Refusals::possible))]
pub fn done(h: Shared, s: &mut Send, tick: u32) -> Result<Option<Raise>, Refusal>
    ensures leaves { Leaves (finished h s.old tick []) (number_in result) s.new }
    ensures raised { let o : Outcome = finished h s.old tick [] in IfOk result (λ r. r ≡ o.raised) }
{
    h.check(*s)?;
    if !s.held {
        return Err(Refusal::NothingThere);
    }
    let frame = s.message;
    s.finish();
    Ok(txmode::raises_at_done(s.tx).then_some(Raise {
        code: 2,
        tick,
        frame,
    }))
}

// Empties the register, aborting its message, and purges the buffer.
#[tactic(auto, unfolding(crate::specs::Calls::aborted, crate::specs::Refusals::abort_refusal, crate::specs::Refusals::possible))]
pub fn abort(h: Shared, s: &mut Send, tick: u32) -> Result<Aborted, Refusal>
    ensures leaves { Leaves (aborted h s.old tick []) (number_in result) s.new }
    ensures purged { let o : Outcome = aborted h s.old tick [] in IfOk result (λ a. a.purged ≡ o.value) }
    ensures raised { let o : Outcome = aborted h s.old tick [] in IfOk result (λ a. a.raised ≡ o.raised) }
{
    h.check(*s)?;
    let purged = s.ring.count;
    let raised = s.held.then_some(Raise {
        code: 3,
        tick,
        frame: s.message,
    });
    s.abort();
    Ok(Aborted { purged, raised })
}
