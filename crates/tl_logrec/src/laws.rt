//! What holds of all log entries.

ghost use Rattle.std.specs.Prelude.{◌≡◌, ℕ, List, Some};
ghost use Rattle.tl_codec.specs.Taken.{IsBytes};
ghost use Rattle.tl_logrec.specs.declared.entry.LogEntry.{LogEntry as TheEntry};
ghost use Rattle.tl_logrec.specs.Entry.{FitsEntry, spelling};
ghost use Rattle.tl_logrec.specs.Reading.{read_entry};

/// What is spelled so is read, and what is read is spelled so.
pub fn entries_are_read()
    ensures again { (entry : TheEntry) → FitsEntry entry → read_entry (spelling entry) ≡ Some entry }
    ensures taken { (bytes : List ℕ) (entry : TheEntry) → IsBytes bytes → read_entry bytes ≡ Some entry → (bytes ≡ spelling entry) × FitsEntry entry }
{}
