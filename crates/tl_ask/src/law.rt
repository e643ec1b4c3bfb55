ghost use Rattle.std.specs.Prelude.{◌≡◌, ℕ, List, if◌then◌else◌};
ghost use Rattle.tl_descriptor.specs.Tids.{TidSet};
ghost use Rattle.tl_logrec.specs.declared.entry.LogEntry.{LogEntry};
ghost use Rattle.tl_manager.specs.declared.request.ManagerRequest.{ManagerRequest};
ghost use Rattle.tl_manager.specs.declared.request.Reply.{Reply};
ghost use Rattle.tl_schema.specs.declared.catalog.Catalog.{Catalog};
ghost use Rattle.tl_versions.specs.declared.version.Version.{Version};
ghost use Rattle.tl_journal.specs.Ask.{Ask, LoadCommits, StoreCommits, LoadLog, StoreLog, LoadRecord, StoreRecord, ReadPage, DrawNumbers, AskManager, Strange};
ghost use Rattle.tl_journal.specs.Bytes.{written};
ghost use Rattle.tl_journal.specs.Strange.{sound_heard};
ghost use Rattle.tl_ask.specs.Given.{is_outcome_of, shown_heard};
ghost use Rattle.tl_ask.specs.Hears.{hears_commits, hears_log, hears_numbers, hears_page, hears_record, hears_store, manager_shown};

/// What is heard of a reply depends on the kind of the request, and on little more.
pub fn requests_alike()
    ensures commits { (catalog : Catalog) (reply : Reply) → shown_heard catalog LoadCommits reply ≡ hears_commits reply }
    ensures log { (catalog : Catalog) (tid : ℕ) (reply : Reply) → shown_heard catalog (LoadLog tid) reply ≡ hears_log catalog reply }
    ensures record_cell { (catalog : Catalog) (key : List ℕ) (reply : Reply) → shown_heard catalog (LoadRecord key) reply ≡ hears_record catalog key reply }
    ensures page { (catalog : Catalog) (shard : ℕ) (from before : List ℕ) (reply : Reply) → shown_heard catalog (ReadPage shard from before) reply ≡ hears_page catalog from before reply }
    ensures store_commits { (catalog : Catalog) (stamp : ℕ) (set : TidSet) (reply : Reply) → shown_heard catalog (StoreCommits stamp set) reply ≡ hears_store reply }
    ensures store_log { (catalog : Catalog) (stamp : ℕ) (log : LogEntry) (reply : Reply) → shown_heard catalog (StoreLog stamp log) reply ≡ hears_store reply }
    ensures store_record { (catalog : Catalog) (key : List ℕ) (stamp : ℕ) (versions : List Version) (reply : Reply) → shown_heard catalog (StoreRecord key stamp versions) reply ≡ hears_store reply }
    ensures numbers { (catalog : Catalog) (reply : Reply) → shown_heard catalog DrawNumbers reply ≡ hears_numbers reply }
    ensures manager { (catalog : Catalog) (manager : ℕ) (asked : ManagerRequest) (reply : Reply) → shown_heard catalog (AskManager manager asked) reply ≡ manager_shown asked reply }
    ensures outcome { (catalog : Catalog) (ask : Ask) (reply : Reply) → sound_heard catalog ask reply ≡ (if is_outcome_of (written ask) reply then shown_heard catalog ask reply else Strange) }
{}
