// A message that comes as binary: format 0, 1 or 2, aligned identifier.
ghost use Rattle.common.specs.Refusals.{Answers};
ghost use Rattle.settings.specs.Binary.{binary_refusal, sent_message};

use crate::Shared;
use common::refusals::Refusal;
use ids::{Header, align};
use messages::Message;

impl Shared {
    // The message to store, or why not.
    #[tactic(auto, unfolding(crate::specs::Binary::binary_refusal))]
    pub fn bring(self, m: Message) -> Result<Message, Refusal>
        ensures { Answers (binary_refusal self m) (sent_message self m) result }
    {
        let format = self.format_of(m.header.format);
        if !align::is_format(format) || !filters::acceptance::mode_takes(self.mode, format) {
            return Err(Refusal::BadFormat);
        }
        let Some(id) = align::raw_id(self.align, format, m.header.id) else {
            return Err(Refusal::BadIdentifier);
        };
        m.header.check_rtr_dlc()?;
        let header = Header {
            id,
            format,
            ..m.header
        };
        Ok(Message { header, ..m }.stored())
    }
}
