ghost use Rattle.std.specs.Prelude.{◌≡◌, ◌≢◌, IfOk, Some, None};
ghost use Rattle.tl_base.specs.declared.place.Settings.{Settings};
ghost use Rattle.tl_journal.specs.Ask.{Ask};
ghost use Rattle.tl_ask.specs.Asked.{asked};
ghost use Rattle.tl_txn.specs.After.{IsTaken, out};
ghost use Rattle.tl_txn.specs.Taken.{going};

use crate::phase::{Open, Phase};
use tl_ask::Asked;
use tl_base::NoMemory;
use tl_manager::{Mark, TxnStep};

/// What comes of a reply: how far the transaction is then, what it asks next, and what it tells.
#[derive(Drop)]
pub struct After {
    pub phase: Phase,
    pub next: Option<Asked>,
    /// `None` at a reply that no place of a run gives.
    pub step: Option<TxnStep>,
}

impl After {
    /// No place of a run replies so.
    pub fn strange() -> After
        ensures { result ≡ record { phase = Phase.Stopped; next = None; step = None } }
    {
        After {
            phase: Phase::Stopped,
            next: None,
            step: None,
        }
    }

    /// It met want of memory.
    pub fn out(mark: Mark) -> After
        ensures { result ≡ out mark }
    {
        After {
            phase: Phase::Stopped,
            next: None,
            step: Some(TxnStep::NoMemory(mark)),
        }
    }

    /// It asks for more, where there was memory for that.
    pub fn going(mark: Mark, phase: Phase, ask: Result<Asked, NoMemory>) -> After
        ensures { (settings : Settings) (wanted : Ask) → IfOk ask (λ is. is ≡ asked settings wanted) → IsTaken settings (going phase wanted mark) result }
    {
        match ask {
            Ok(ask) => After {
                phase,
                next: Some(ask),
                step: Some(TxnStep::Going(mark)),
            },
            Err(NoMemory) => After::out(mark),
        }
    }

    /// It takes reads, and its end.
    pub fn ready(live: Open, mark: Mark) -> After
        ensures { result ≡ record { phase = Phase.Ready live; next = None; step = Some (TxnStep.Ready mark) } }
    {
        After {
            phase: Phase::Ready(live),
            next: None,
            step: Some(TxnStep::Ready(mark)),
        }
    }
}
