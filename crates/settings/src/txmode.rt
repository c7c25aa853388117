// TxMode: whether a transmitted event is raised, and when.
ghost use Rattle.std.specs.Prelude.{◌≡◌};
ghost use Rattle.settings.specs.TxMode.{good_tx, raises_at_take, raises_at_done};

// TxMode is 1, 3, 5 or 7.
#[tactic(auto, unfolding(crate::specs::TxMode::good_tx))]
pub fn is_tx(tx: u32) -> bool
    ensures { result ≡ good_tx tx }
{
    matches!(tx, 1 | 3 | 5 | 7)
}

// A transmitted event is raised at take.
#[tactic(auto, unfolding(crate::specs::TxMode::raises_at_take))]
pub fn raises_at_take(tx: u32) -> bool
    ensures { result ≡ raises_at_take tx }
{
    (tx >> 1) % 2 == 1 && (tx >> 2) % 2 == 0
}

// A transmitted event is raised at done.
#[tactic(auto, unfolding(crate::specs::TxMode::raises_at_done))]
pub fn raises_at_done(tx: u32) -> bool
    ensures { result ≡ raises_at_done tx }
{
    (tx >> 1) % 2 == 1 && (tx >> 2) % 2 == 1
}
