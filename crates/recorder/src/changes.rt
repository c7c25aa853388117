// Changes of setting: mode, format and site are the device's, the rest is the inbox's once the send channel was judged.
ghost use Rattle.std.specs.Prelude.{[]};
ghost use Rattle.common.specs.Refusals.{number_in};
ghost use Rattle.device.specs.Outcomes.{lends};
ghost use Rattle.recorder.specs.Outcomes.{Leaves, QueueMet};
ghost use Rattle.recorder.specs.Changes.{changed, mode_set, format_set, site_set, filter_set, event_mask_set};

use common::refusals::Refusal;
use device::Device;
use events::Raise;
use messages::Message;
use settings::Shared;
use settings::channel::Channel;
use sites::Site;

// Sets the shared settings anew, and raises code 5.
#[tactic(auto, unfolding(crate::specs::Changes::changed))]
fn change(d: &mut Device, s: Shared, tick: u32, queue: &mut [u8]) -> Result<(), Refusal>
    ensures { QueueMet (changed s tick d.old (lends queue.old [] [])) (number_in result) d.new queue.new }
{
    if !d.queue_ready(queue.len()) {
        return Err(Refusal::NotPossible);
    }
    if !s.is_good() {
        return Err(Refusal::SettingOutOfRange);
    }
    d.shared = s;
    let changed = Raise {
        code: 5,
        tick,
        frame: Message::default(),
    };
    d.receive.past_filter(s.site, changed, queue);
    Ok(())
}

// Sets the mode.
pub fn set_mode(d: &mut Device, mode: u32, tick: u32, queue: &mut [u8]) -> Result<(), Refusal>
    ensures { QueueMet (mode_set mode tick d.old (lends queue.old [] [])) (number_in result) d.new queue.new }
{
    change(d, Shared { mode, ..d.shared }, tick, queue)
}

// Sets the default format.
pub fn set_format(d: &mut Device, format: u32, tick: u32, queue: &mut [u8]) -> Result<(), Refusal>
    ensures { QueueMet (format_set format tick d.old (lends queue.old [] [])) (number_in result) d.new queue.new }
{
    change(d, Shared { format, ..d.shared }, tick, queue)
}

// Sets the site of later events.
#[tactic(auto, unfolding(crate::specs::Changes::site_set))]
pub fn set_site(d: &mut Device, site: Site) -> Result<(), Refusal>
    ensures { Leaves (site_set site d.old (lends [] [] [])) (number_in result) d.new }
{
    if !d.is_good() {
        return Err(Refusal::NotPossible);
    }
    if !site.is_good() {
        return Err(Refusal::SettingOutOfRange);
    }
    d.shared.site = site;
    Ok(())
}

// Sets code and mask of the filter.
#[tactic(auto, unfolding(crate::specs::Changes::filter_set))]
pub fn set_filter(d: &mut Device, code: u32, mask: u32) -> Result<(), Refusal>
    ensures { Leaves (filter_set code mask d.old (lends [] [] [])) (number_in result) d.new }
{
    if !d.send.is_good() {
        return Err(Refusal::NotPossible);
    }
    inbox::changing::set_filter(d.shared, &mut d.receive, code, mask)
}

// Sets the event mask.
#[tactic(auto, unfolding(crate::specs::Changes::event_mask_set))]
pub fn set_event_mask(d: &mut Device, events: u32) -> Result<(), Refusal>
    ensures { Leaves (event_mask_set events d.old (lends [] [] [])) (number_in result) d.new }
{
    if !d.send.is_good() {
        return Err(Refusal::NotPossible);
    }
    inbox::changing::set_event_mask(d.shared, &mut d.receive, events)
}
