// Shared settings in range, and the format that 0 means.
ghost use Rattle.std.specs.Prelude.{◌≡◌};
ghost use Rattle.settings.specs.Ranges.{good_shared, format_of};

use crate::Shared;

impl Shared {
    // Mode, format, Align and site in their ranges.
    #[tactic(auto, unfolding(crate::specs::Ranges::good_shared))]
    pub fn is_good(self) -> bool
        ensures { result ≡ good_shared self }
    {
        self.mode <= 1
            && self.format <= 2
            && filters::acceptance::mode_takes(self.mode, self.format)
            && self.align <= 3
            && self.site.is_good()
    }

    // A format of a call, 0 being the channel's default.
    #[tactic(auto, unfolding(crate::specs::Ranges::format_of))]
    pub fn format_of(self, format: u32) -> u32
        ensures { result ≡ format_of self format }
    {
        if format != 0 {
            return format;
        }
        if self.format != 0 {
            return self.format;
        }
        if self.mode == 0 { 1 } else { 2 }
    }
}
