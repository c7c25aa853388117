// Opening a device into a state.
ghost use Rattle.std.specs.Prelude.{◌≡◌, []};
ghost use Rattle.device.specs.Outcomes.{Lent, lends};
ghost use Rattle.board.specs.Board.{opened_on, Called};

use common::refusals::Refusal;

// Opens a device over two tables, of which no byte is written.
#[tactic(auto, unfolding(crate::specs::Board::opened_on, device::specs::Opening::opened, common::specs::Refusals::is_refusal), using(kept::proofs::Laws::refused_left, kept::proofs::Laws::zero_left))]
#[unsafe(no_mangle)]
pub extern "C" fn sv_open(state: &mut [u8], settings: &[u32], queue: &[u8], send: &[u8]) -> u32
    ensures { let tables : Lent = lends queue.now send.now [] in
        Called (opened_on settings.now state.old tables)
        state.old result state.new tables }
{
    let Some(given) = settings::given::given_settings(settings) else {
        return Refusal::SettingOutOfRange.number();
    };
    match device::opening::open(given, queue, send) {
        Err(refusal) => refusal.number(),
        Ok(_) if state.len() != kept::state::STATE => Refusal::NotPossible.number(),
        Ok(d) => {
            kept::state::write_state(state, d);
            0
        }
    }
}
