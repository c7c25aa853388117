// What several calls check first.
ghost use Rattle.std.specs.Prelude.{◌≡◌, length, ltb};
ghost use Rattle.common.specs.Choice.{pick};
ghost use Rattle.common.specs.Refusals.{number_in, Answers};
ghost use Rattle.messages.specs.Records.{message_in};
ghost use Rattle.buffer.specs.Channel.{oldest};
ghost use Rattle.outbox.specs.Refusals.{ready, take_refusal};

use buffer::Send;
use common::refusals::Refusal;
use messages::Message;
use settings::Shared;

// Settings and channel are possible, and the table, of n bytes, is long enough, or 2.
#[tactic(auto, unfolding(crate::specs::Refusals::ready, crate::specs::Refusals::possible))]
pub fn check_ready(h: Shared, s: Send, n: usize) -> Result<(), Refusal>
    ensures { number_in result ≡ pick (ready h s n) 0 2 }
{
    h.check_table(s, n)
}

// The buffer has room, or 5.
pub fn check_room(s: Send) -> Result<(), Refusal>
    ensures { number_in result ≡ pick (ltb s.ring.count s.ring.capacity) 0 5 }
{
    if s.ring.capacity <= s.ring.count {
        return Err(Refusal::Occupied);
    }
    Ok(())
}

// The oldest message, which a take may move: 2, 5, 4, 14.
#[tactic(auto, unfolding(crate::specs::Refusals::take_refusal, crate::specs::Refusals::wait_refusal, messages::specs::Records::judge_message), using(crate::proofs::Laws::judged))]
pub fn find_oldest(h: Shared, s: Send, table: &[u8]) -> Result<Message, Refusal>
    ensures { Answers (take_refusal h s table.now) (message_in (oldest s table.now)) result }
{
    check_ready(h, s, table.len())?;
    if s.held {
        return Err(Refusal::Occupied);
    }
    if s.ring.count == 0 {
        return Err(Refusal::NothingThere);
    }
    messages::records::judge_message(s.oldest(table)).ok_or(Refusal::Damaged)
}
