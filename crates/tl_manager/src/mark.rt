use tl_base::Tid;

/// What a reply meant for the history of the run.
#[derive(Clone, Copy, Debug, PartialEq, Eq)]
pub enum Mark {
    /// Nothing.
    Quiet,
    /// The finished transactions were loaded, for a transaction that is to begin.
    Asked,
    /// The transaction has its number and its snapshot.
    Began { tid: Tid },
    /// The transaction tries to commit.
    Tried { tid: Tid },
    /// A version of `rival`, outside the snapshot, stands in the record of this place among the own records.
    Clashed { tid: Tid, rival: Tid, at: u32 },
    /// The transaction is finished, and its writes stand.
    Committed { tid: Tid },
    /// The transaction is finished, and nothing of it stands.
    Undone { tid: Tid },
    /// The statement is answered.
    Answered,
}

/// What a transaction, or a recovery, does after a reply.
#[derive(Clone, Copy, Debug, PartialEq, Eq)]
pub enum TxnStep {
    /// It asks for more.
    Going(Mark),
    /// It waits for the next read, for commit or for rollback.
    Ready(Mark),
    /// An index scan has loaded a leaf and the records of its entries.
    Leaf(Mark),
    /// It is over.
    Ended(Mark),
    /// It met want of memory, and asks nothing more. The mark holds all the same.
    NoMemory(Mark),
}
