// The bench sheet, case by case through the public calls: the paper's words, then what was computed.
#![tactic(auto)]

mod event_line;
mod identifiers;
mod message_texts;
mod queueing;
mod setting;

use common::refusals::Refusal;

fn main(rt: HostRuntime) -> Result<(), Refusal> {
    message_texts::cases(&rt)?;
    identifiers::cases(&rt);
    queueing::cases(&rt)?;
    event_line::cases(&rt)
}
