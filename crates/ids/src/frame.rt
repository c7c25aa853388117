// A frame's header: is it good, and how many data bytes does it carry.
ghost use Rattle.std.specs.Prelude.{◌≡◌};
ghost use Rattle.common.specs.Refusals.{number_in};
ghost use Rattle.ids.specs.Frames.{rtr_dlc_refusal, header_refusal, carried};

use crate::{Header, align};
use common::refusals::Refusal;

impl Header {
    // The first of 13, 8, 9, 10.
    #[tactic(auto, unfolding(crate::specs::Frames::header_refusal))]
    pub fn check(self) -> Result<(), Refusal>
        ensures { number_in result ≡ header_refusal self }
    {
        if !align::is_format(self.format) {
            return Err(Refusal::BadFormat);
        }
        if align::id_limit(self.format) <= self.id {
            return Err(Refusal::BadIdentifier);
        }
        self.check_rtr_dlc()
    }

    // The first of 9 and 10.
    pub fn check_rtr_dlc(self) -> Result<(), Refusal>
        ensures { number_in result ≡ rtr_dlc_refusal self.rtr self.dlc }
    {
        if 1 < self.rtr {
            return Err(Refusal::BadRtr);
        }
        if 15 < self.dlc {
            return Err(Refusal::BadDlc);
        }
        Ok(())
    }

    // How many data bytes the frame carries.
    #[tactic(auto, unfolding(crate::specs::Frames::carried))]
    pub fn carried(self) -> u32
        ensures { result ≡ carried self }
    {
        if self.rtr == 1 { 0 } else { self.dlc.min(8) }
    }
}
