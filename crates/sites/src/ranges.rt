// The ranges of a site's two numbers.
ghost use Rattle.std.specs.Prelude.{◌≡◌};
ghost use Rattle.sites.specs.Sites.{good_offset, good_site};

use crate::Site;

// Minutes from -720 to 840, a negative one as a 32-bit number in two's complement.
#[tactic(auto, unfolding(crate::specs::Sites::good_offset))]
fn is_offset(n: u32) -> bool
    ensures { result ≡ good_offset n }
{
    n <= 840 || 4294966576 <= n
}

impl Site {
    // Both numbers are in range.
    #[tactic(auto, unfolding(crate::specs::Sites::good_site))]
    pub fn is_good(self) -> bool
        ensures { result ≡ good_site self }
    {
        is_offset(self.offset) && self.second <= 281474976710655
    }
}
