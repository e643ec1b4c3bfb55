ghost use Rattle.std.specs.Prelude.{◌≡◌, Some, None};

use crate::phase::Phase;
use tl_ask::Asked;
use tl_manager::{Mark, TxnStep};

/// What a recovery is after a reply, and what it tells.
#[derive(Drop)]
pub struct After {
    pub phase: Phase,
    pub next: Option<Asked>,
    /// `None` where no place of a run replies so.
    pub step: Option<TxnStep>,
}

/// It goes on in this phase, with this request.
pub fn going(phase: Phase, next: Asked, mark: Mark) -> After
    ensures { result ≡ record { phase = phase; next = Some next; step = Some (TxnStep.Going mark) } }
{
    After {
        phase,
        next: Some(next),
        step: Some(TxnStep::Going(mark)),
    }
}

/// After a reply that no place of a run gives.
pub fn strange() -> After
    ensures { result ≡ record { phase = Phase.Stopped; next = None; step = None } }
{
    After {
        phase: Phase::Stopped,
        next: None,
        step: None,
    }
}
