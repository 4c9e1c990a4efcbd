//! What an opening finds, depending on what its files hold. The law is the contract of a function
//! that does nothing.

ghost use Rattle.std.specs.Prelude.{◌≡◌, List, Some, slice_get, suc, ℕ};
ghost use Rattle.sqlite_wal.specs.Recovery.{Image};
ghost use Rattle.urb_stable.specs.Entries.{Entry};
ghost use Rattle.urb_sqlite.specs.FoundJournals.{AreFoundIn, HoldsRecords};

use urb_stable::Stable;

/// The opening of a journal finds the records that its files hold, as long as its disk returns what
/// was written.
pub fn an_opening_finds_what_its_files_hold<S: Stable>()
    ensures { (held : ℕ → Image) (journals : List S) (i : ℕ) (journal : S)
        (records : List Entry) →
        AreFoundIn S.Stable held journals → slice_get journals i ≡ Some journal →
        HoldsRecords (held (suc i)) records → S.Stable.is_clean journal →
        S.Stable.is_honest journal × (S.Stable.certain journal ≡ records) }
{}
