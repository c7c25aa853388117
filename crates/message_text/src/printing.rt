// A message printed into a lent buffer.
ghost use Rattle.std.specs.Prelude.{◌≡◌, ◌≤◌, length};
ghost use Rattle.digits.specs.Written.{Put, Prints};
ghost use Rattle.messages.specs.Records.{message_in};
ghost use Rattle.message_text.specs.Printing.{message_room, message_text, message_line, message_refusal, message_record_refusal};

use common::refusals::Refusal;
use digits::writing;
use messages::Message;

// The room that the longest line needs.
pub const ROOM: usize = 37;

// The line of a message whose aligned identifier is id.
#[tactic(auto, using(digits::proofs::Lengths::lengths, ids::proofs::Frames::carried_le))]
fn put_message(out: &mut [u8], id: u32, m: Message) -> usize
    requires { message_room ≤ length out.old }
    ensures { Put out.old 0 (message_text id m.header m.bytes) out.new result }
{
    let p = writing::put_hex(out, 0, id, 8);
    let q = writing::put_field(out, p, b' ', m.header.rtr, 1);
    let r = writing::put_field(out, q, b' ', m.header.dlc, 1);
    let s = writing::put_bytes(out, r, b' ', &m.bytes[..m.header.carried() as usize]);
    writing::put_byte(out, s, b'\n')
}

// Prints a message given alone: its identifier is raw.
#[tactic(auto, unfolding(crate::specs::Printing::message_refusal, crate::specs::Printing::message_line), using(crate::proofs::Printed::shown))]
pub fn print_message(align: u32, m: Message, out: &mut [u8]) -> Result<usize, Refusal>
    ensures { Prints (message_refusal align m (length out.old)) (message_line align m)
        out.old result out.new }
{
    if out.len() < ROOM {
        return Err(Refusal::NoRoom);
    }
    if 3 < align {
        return Err(Refusal::SettingOutOfRange);
    }
    m.header.check()?;
    let Some(id) = ids::align::align_id(align, m.header.format, m.header.id) else {
        return Err(Refusal::BadIdentifier);
    };
    Ok(put_message(out, id, m))
}

// Prints a message record.
#[tactic(auto, unfolding(crate::specs::Printing::message_record_refusal, messages::specs::Records::judge_message))]
pub fn print_record(align: u32, s: &[u8], out: &mut [u8]) -> Result<usize, Refusal>
    ensures { Prints (message_record_refusal align s.now (length out.old))
        (message_line align (message_in s.now)) out.old result out.new }
{
    if out.len() < ROOM {
        return Err(Refusal::NoRoom);
    }
    if 3 < align {
        return Err(Refusal::SettingOutOfRange);
    }
    let Some(m) = messages::records::judge_message(s) else {
        return Err(Refusal::Damaged);
    };
    print_message(align, m, out)
}
