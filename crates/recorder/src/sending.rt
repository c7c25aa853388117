// Sending a message, binary or as text: the receive channel is judged, the rest is the outbox's.
ghost use Rattle.std.specs.Prelude.{◌≡◌, []};
ghost use Rattle.common.specs.Refusals.{number_in};
ghost use Rattle.device.specs.Outcomes.{Outcome, lends};
ghost use Rattle.recorder.specs.Outcomes.{SendMet};
ghost use Rattle.recorder.specs.Sending.{sent, text_sent};

use common::refusals::Refusal;
use device::Device;
use messages::Message;
use outbox::TextSent;
use settings::channel::Channel;

// Sends a message given in binary: format 0, 1 or 2, aligned identifier.
#[tactic(auto, unfolding(crate::specs::Sending::sent))]
pub fn send(d: &mut Device, m: Message, send: &mut [u8]) -> Result<(), Refusal>
    ensures { SendMet (sent m d.old (lends [] send.old [])) (number_in result) d.new send.new }
{
    if !d.receive.is_good() {
        return Err(Refusal::NotPossible);
    }
    outbox::calls::send(d.shared, &mut d.send, m, send)
}

// Sends the message at the front of a text, in the default format; answers the bytes used, refused or not.
#[tactic(auto, unfolding(crate::specs::Sending::text_sent))]
pub fn send_text(d: &mut Device, text: &[u8], send: &mut [u8]) -> TextSent
    ensures write { SendMet (text_sent text.now d.old (lends [] send.old [])) (number_in result.sent) d.new send.new }
    ensures used { let o : Outcome = text_sent text.now d.old (lends [] send.old []) in result.used ≡ o.value }
{
    if !d.receive.is_good() {
        return TextSent {
            used: 0,
            sent: Err(Refusal::NotPossible),
        };
    }
    outbox::calls::send_text(d.shared, &mut d.send, text, send)
}
