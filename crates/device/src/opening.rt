// Opening a device.
ghost use Rattle.std.specs.Prelude.{◌≡◌, []};
ghost use Rattle.common.specs.Refusals.{Answers};
ghost use Rattle.device.specs.State.{fresh};
ghost use Rattle.device.specs.Outcomes.{Outcome, lends};
ghost use Rattle.device.specs.Opening.{opened};

use crate::Device;
use buffer::Send;
use common::Ring;
use common::refusals::Refusal;
use filters::Filter;
use messages::Message;
use queue::Receive;
use settings::channel::Channel;
use settings::{Settings, Shared};

fn fresh_device(s: Settings) -> Device
    ensures { result ≡ fresh s }
{
    Device {
        shared: Shared {
            mode: s.mode,
            format: s.format,
            align: s.align,
            site: s.site,
        },
        receive: Receive {
            filter: Filter {
                active: s.active,
                code: s.code,
                mask: s.mask,
            },
            events: s.events,
            ring: Ring::empty(s.queue),
            pending: 0,
        },
        send: Send {
            tx: s.tx,
            ring: Ring::empty(s.buffer),
            held: false,
            message: Message::default(),
        },
    }
}

// Opens a device over two lent tables, of which no byte is written.
#[tactic(auto, unfolding(crate::specs::Opening::opened))]
pub fn open(s: Settings, queue: &[u8], send: &[u8]) -> Result<Device, Refusal>
    ensures { let o : Outcome = opened s (lends queue.now send.now []) in Answers o.number o.device result }
{
    let d = fresh_device(s);
    if !d.is_good() {
        return Err(Refusal::SettingOutOfRange);
    }
    if !d.receive.fits(queue.len()) || !d.send.fits(send.len()) {
        return Err(Refusal::NotPossible);
    }
    Ok(d)
}
