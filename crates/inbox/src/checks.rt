// The check of settings, channel and table that most calls begin with.
ghost use Rattle.std.specs.Prelude.{◌≡◌};
ghost use Rattle.common.specs.Choice.{pick};
ghost use Rattle.common.specs.Refusals.{number_in};
ghost use Rattle.inbox.specs.Refusals.{ready};

use common::refusals::Refusal;
use queue::Receive;
use settings::Shared;

// They are possible, and the table, of n bytes, is long enough, or 2.
#[tactic(auto, unfolding(crate::specs::Refusals::ready, crate::specs::Refusals::possible))]
pub fn check_ready(h: Shared, r: Receive, n: usize) -> Result<(), Refusal>
    ensures { number_in result ≡ pick (ready h r n) 0 2 }
{
    h.check_table(r, n)
}
