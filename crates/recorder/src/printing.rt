// The print calls: Align is the channel's.
ghost use Rattle.std.specs.Prelude.{[]};
ghost use Rattle.device.specs.Outcomes.{lends};
ghost use Rattle.recorder.specs.Outcomes.{PrintMet};
ghost use Rattle.recorder.specs.Printing.{message_record_printed, event_record_printed, message_printed};

use common::refusals::Refusal;
use device::Device;
use messages::Message;

// Prints a message record: answers the line's length.
#[tactic(auto, unfolding(crate::specs::Printing::line_printed))]
pub fn print_message_record(d: Device, s: &[u8], out: &mut [u8]) -> Result<usize, Refusal>
    ensures { PrintMet (message_record_printed s.now d (lends [] [] out.old)) result out.new }
{
    if !d.is_good() {
        return Err(Refusal::NotPossible);
    }
    message_text::printing::print_record(d.shared.align, s, out)
}

// Prints an event record: answers the line's length.
#[tactic(auto, unfolding(crate::specs::Printing::line_printed))]
pub fn print_event_record(d: Device, s: &[u8], out: &mut [u8]) -> Result<usize, Refusal>
    ensures { PrintMet (event_record_printed s.now d (lends [] [] out.old)) result out.new }
{
    if !d.is_good() {
        return Err(Refusal::NotPossible);
    }
    event_text::printing::print_record(d.shared.align, s, out)
}

// Prints a message given alone: raw identifier, either mode. Answers the line's length.
#[tactic(auto, unfolding(crate::specs::Printing::line_printed))]
pub fn print_message(d: Device, m: Message, out: &mut [u8]) -> Result<usize, Refusal>
    ensures { PrintMet (message_printed m d (lends [] [] out.old)) result out.new }
{
    if !d.is_good() {
        return Err(Refusal::NotPossible);
    }
    message_text::printing::print_message(d.shared.align, m, out)
}
