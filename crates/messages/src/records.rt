// A message's 16 bytes.
ghost use Rattle.std.specs.Prelude.{◌≡◌, length, eqb, Option};
ghost use Rattle.common.specs.Choice.{pick};
ghost use Rattle.messages.specs.Records.{message_size, stored, good_message, message_bytes};
ghost use Rattle.messages.specs.Records.{message_in, is_message, is_empty, judge_message};

use crate::{Message, carried};
use ids::Header;

// The bytes of a message's slot.
pub const MESSAGE: usize = 16;

impl Message {
    // The message as it is stored: bytes that its frame does not carry are zero.
    #[tactic(auto, unfolding(crate::specs::Records::stored))]
    pub fn stored(self) -> Message
        ensures { result ≡ stored self }
    {
        Message {
            bytes: carried::keep_first(&self.bytes, self.header.carried()),
            ..self
        }
    }

    // A good header, and no byte that is not carried.
    #[tactic(auto, unfolding(crate::specs::Records::good_message))]
    pub fn is_good(self) -> bool
        ensures { result ≡ good_message self }
    {
        self.header.check().is_ok() && carried::zero_past(&self.bytes, self.header.carried())
    }

    // Its bytes.
    #[tactic(auto, unfolding(crate::specs::Records::message_bytes), using(common::proofs::LittleEndian::to_32))]
    pub fn record(self) -> [u8; MESSAGE]
        ensures { result ≡ message_bytes self }
    {
        let mut s = [0; MESSAGE];
        s[..4].copy_from_slice(&self.header.id.to_le_bytes());
        s[4] = (self.header.format % 256) as u8;
        s[5] = (self.header.rtr % 256) as u8;
        s[6] = (self.header.dlc % 256) as u8;
        s[8..].copy_from_slice(&self.bytes);
        s
    }

    // Writes a lent slot of 16 bytes; a part of another length stays as it is.
    pub fn write(self, slot: &mut [u8])
        ensures { slot.new
            ≡ pick (eqb (length slot.old) message_size) (message_bytes self) slot.old }
    {
        if slot.len() == MESSAGE {
            slot.copy_from_slice(&self.record());
        }
    }
}

// The message in 16 bytes.
#[tactic(auto, unfolding(crate::specs::Records::message_in))]
fn message_in(s: &[u8]) -> Message
    requires { length s.now ≡ 16 }
    ensures { result ≡ message_in s.now }
{
    let header = Header {
        id: common::number_at(s, 0),
        format: s[4] as u32,
        rtr: s[5] as u32,
        dlc: s[6] as u32,
    };
    let mut bytes = [0; 8];
    bytes.copy_from_slice(&s[8..]);
    Message { header, bytes }
}

// The bytes are those of a good message.
#[tactic(auto, unfolding(crate::specs::Records::is_message))]
pub fn is_message(s: &[u8]) -> bool
    ensures { result ≡ is_message s.now }
{
    s.len() == MESSAGE && s[7] == 0 && message_in(s).is_good()
}

// The bytes are a message's place with no message in it: sixteen zeros, looked at eight at a time.
pub fn is_empty(s: &[u8]) -> bool
    ensures { result ≡ is_empty s.now }
{
    s.len() == MESSAGE && carried::zero_past(&s[..8], 0) && carried::zero_past(&s[8..], 0)
}

// The message that any bytes hold; none where they are damaged.
#[tactic(auto, unfolding(crate::specs::Records::judge_message), using(crate::proofs::Laws::message_tests))]
pub fn judge_message(s: &[u8]) -> Option<Message>
    ensures { result ≡ judge_message s.now }
{
    if !is_message(s) {
        return None;
    }
    Some(message_in(s))
}
