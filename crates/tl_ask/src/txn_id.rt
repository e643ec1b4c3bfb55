ghost use Rattle.std.specs.Prelude.{◌≡◌, ◌≤◌, ◌^◌, IsSome, IfSome, ◌↔◌};

use std::marker::Model;
use tl_base::Tid;

/// The end of transaction numbers.
const GREATEST: Tid = 1 << 62;

/// The number of a transaction, which is at most 2^62.
#[derive(Clone, Copy, Debug, PartialEq, Eq)]
pub struct TxnId {
    tid: Tid,
}

impl Model for TxnId {
    ghost use Rattle.std.specs.Prelude.{ℕ, ◌≤◌, ◌^◌};

    ghost Value = { ℕ };

    ghost view = { λ id. id.tid };

    ghost invariant = { λ id. id.tid ≤ 2 ^ 62 };

    ghost inverse = { λ tid. record { tid = tid } };
}

impl TxnId {
    /// `None` exactly where the number is above 2^62.
    pub fn new(tid: Tid) -> Option<TxnId>
        ensures within { IsSome result ↔ (tid ≤ 2 ^ 62) }
        ensures value { IfSome result (λ id. id ≡ tid) }
    {
        if tid > GREATEST {
            return None;
        }
        Some(TxnId { tid })
    }

    /// The number alone.
    pub fn get(self) -> Tid
        ensures value { result ≡ self }
        ensures greatest { result ≤ 2 ^ 62 }
    {
        self.tid
    }
}
