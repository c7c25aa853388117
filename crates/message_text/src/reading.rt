// What a message text says.
ghost use Rattle.std.specs.Prelude.{◌≡◌, length, Option, Result};
ghost use Rattle.common.specs.Choice.{pick};
ghost use Rattle.ids.specs.Ids.{raw_of};
ghost use Rattle.message_text.specs.Reading.{all_bytes, judged_data, judged, read_message};

use crate::Said;
use common::refusals::Refusal;
use ids::Header;
use messages::Message;
use numbers::{Kept, scanning};

// The raw identifier of an aligned one of any size.
#[tactic(auto, using(crate::proofs::Ids::raw_large))]
fn raw_of(align: u32, format: u32, v: u64) -> Option<u32>
    ensures { result ≡ raw_of align format v }
{
    let shown = u32::try_from(v).ok()?;
    ids::align::raw_id(align, format, shown)
}

// Eight data values as bytes, where each is one.
#[tactic(auto, using(crate::proofs::Data::bytes_stop, crate::proofs::Data::bytes_last, crate::proofs::Data::data_done))]
fn data_bytes(values: &[u64]) -> Result<[u8; 8], Refusal>
    requires { length values.now ≡ 8 }
    ensures { result ≡ pick (all_bytes values.now) (Ok values.now) (Err Refusal.NoByte) }
{
    let mut bytes = [0; 8];
    for i in 0..8 {
        let Ok(byte) = u8::try_from(values[i]) else {
            return Err(Refusal::NoByte);
        };
        bytes[i] = byte;
    }
    Ok(bytes)
}

// A good header's data among the numbers kept: values past those carried are dropped.
#[tactic(auto, unfolding(crate::specs::Reading::judged_data, messages::specs::Records::stored), using(ids::proofs::Frames::carried_le))]
fn judge_data(header: Header, kept: Kept) -> Result<Message, Refusal>
    ensures { result ≡ judged_data header kept.count kept.at }
{
    if kept.count < 3 + header.carried() as usize {
        return Err(Refusal::TooFewValues);
    }
    if 11 < kept.count {
        return Err(Refusal::TooManyValues);
    }
    let bytes = data_bytes(&kept.at[3..])?;
    Ok(Message { header, bytes }.stored())
}

// What the numbers kept say.
#[tactic(auto, unfolding(crate::specs::Reading::judged))]
fn judge(align: u32, format: u32, kept: Kept) -> Result<Message, Refusal>
    ensures { result ≡ judged align format kept.count kept.at }
{
    let [shown, rtr, dlc, ..] = kept.at;
    if kept.count < 3 {
        return Err(Refusal::TooFewValues);
    }
    let id = raw_of(align, format, shown).ok_or(Refusal::BadIdentifier)?;
    if 1 < rtr {
        return Err(Refusal::BadRtr);
    }
    if 15 < dlc {
        return Err(Refusal::BadDlc);
    }
    let header = Header {
        id,
        format,
        rtr: rtr as u32,
        dlc: dlc as u32,
    };
    judge_data(header, kept)
}

// What a message text says under an Align, for a channel's default format.
#[tactic(auto, unfolding(crate::specs::Reading::read_message), using(crate::proofs::Judging::text_judged))]
pub fn read_message(align: u32, format: u32, text: &[u8]) -> Said
    ensures { result ≡ read_message align format text.now }
{
    let scanned = scanning::scan(text);
    let end = scanning::first_end(text, scanned.stop);
    if text.len() <= end {
        return Said {
            said: Err(Refusal::NoEnd),
            used: 0,
        };
    }
    Said {
        said: judge(align, format, scanned.kept),
        used: scanning::after_ends(text, end),
    }
}
