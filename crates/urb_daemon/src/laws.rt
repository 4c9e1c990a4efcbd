//! The laws about a group over any number of starts. Each law is the contract of a function that
//! does nothing.

ghost use Rattle.std.specs.Prelude.{◌≡◌, ◌<◌, ◌≤◌, ◌++◌, ◌⊎◌, IsTrue, List, Some, [], length};
ghost use Rattle.std.specs.Prelude.{slice_get, suc, ℕ};
ghost use Rattle.sqlite.specs.Files.{file_state};
ghost use Rattle.sqlite_wal.specs.Recovery.{Image};
ghost use Rattle.urb_names.specs.LabelsAndContents.{Content, Label, Limits};
ghost use Rattle.urb_names.specs.ListPrefixes.{Begins};
ghost use Rattle.urb_names.specs.Nodes.{is_node};
ghost use Rattle.urb_node.specs.Replies.{Same};
ghost use Rattle.urb_node.specs.declared.answer.Answer.TheVariants.{Accepted};
ghost use Rattle.urb_stable.specs.AheadStores.{ghosts_over};
ghost use Rattle.urb_stable.specs.DeliveredLogs.{entries};
ghost use Rattle.urb_stable.specs.Entries.{Entry};
ghost use Rattle.urb_world.specs.Acceptance.{HasStored};
ghost use Rattle.urb_group.specs.GroupViews.{GroupView, IsSound, Shows};
ghost use Rattle.urb_world.specs.RecoveryPlans.{after};
ghost use Rattle.urb_world.specs.Step.{Event, Submit, step};
ghost use Rattle.urb_group.specs.StoreContents.{WouldLeave, WouldLeaveAhead};
ghost use Rattle.urb_world.specs.StoresAhead.{IsAsStored};
ghost use Rattle.urb_world.specs.World.{World, image_of, opened, started, stored};
ghost use Rattle.urb_show.specs.Pasts.{IsLedTo};
ghost use Rattle.urb_turn.specs.KilledBatches.{AreKilledAt, IsHoldingAt};
ghost use Rattle.urb_turn.specs.NodeStores.{HaveTails};
ghost use Rattle.urb_sqlite.specs.FoundJournals.{HoldsRecords};
ghost use Rattle.urb_folder.specs.StoppedFiles.{HasLeft, HoldsStopped};
ghost use Rattle.urb_daemon.specs.Lives.{Lives, OpensAfter};

use urb_folder::{Journal, NodeDisk};
use urb_stable::{AheadStore, Stable};

/// Nothing is lost over any number of starts, whenever the process was killed in between. What a
/// node has stored as its own stays stored under its name, and what it has shown stays shown. At each
/// start, a message that was stored before is accepted again under its name.
pub fn nothing_is_lost_over_any_number_of_starts()
    ensures shown { (old : GroupView) (w v : World) (p : ℕ) →
        IsSound old → Shows old w → Lives w v →
        Begins (entries (stored w p)) (entries (stored v p)) }
    ensures stays { (old : GroupView) (w v : World) (p : ℕ) (x : Label) (m : Content) →
        IsSound old → Shows old w → Lives w v → HasStored w p x m → HasStored v p x m }
    ensures again { (old : GroupView) (w v : World) (size : Limits) (images : List (List Entry))
        (group : GroupView) (p : ℕ) (x : Label) (m : Content) →
        IsSound old → Shows old w → Lives w v → OpensAfter v size images group →
        IsTrue (is_node v.size.n p) → HasStored w p x m →
        (step (opened size (image_of images)) (Submit p m)).0 ≡ Same (Accepted x) }
{}

/// A first start takes files without a byte: they are what a stop leaves of a new group.
pub fn empty_files_are_those_of_a_new_group()
    ensures { (held : ℕ → Image) (group : GroupView) (size : Limits) →
        IsSound group → length group.nodes ≡ group.size.n → Shows group (started size) →
        ((i : ℕ) → i < size.n → (held (suc i)).db ≡ []) →
        HasLeft held group (started size) size }
{}

/// What a stop leaves is what the next start takes. The process stopped in a world that its group
/// showed, and the files of each node hold a database that the stop may have left of its journal. A
/// node that is new at the next start has no record in its files.
pub fn a_stop_leaves_what_the_next_start_takes<D: NodeDisk>(journals: &[Journal<D>])
    ensures { (held : ℕ → Image) (old : GroupView) (w : World) (size : Limits) →
        IsSound old → length old.nodes ≡ old.size.n → old.size.n ≤ size.n → Shows old w →
        length old.nodes ≤ length journals.now →
        WouldLeave ⟦<Journal<D> as Stable>⟧ w journals.now →
        ((i : ℕ) (j : _) → slice_get journals.now i ≡ Some j →
        HoldsStopped (⟦<Journal<D> as Stable>⟧.is_clean j)
        (file_state j.journal.conn).may_leave (held (suc i))) →
        ((i : ℕ) → length journals.now ≤ i → i < size.n → HoldsRecords (held (suc i)) []) →
        HasLeft held old w size }
{}

/// The same, if a worker had stored records ahead of their events when the process stopped. The next
/// start takes the world as its stores have it: each node's records, followed by those ahead.
pub fn a_stop_ahead_leaves_what_the_next_start_takes<D: NodeDisk>(journals: &[Journal<D>])
    ensures { (held : ℕ → Image) (old : GroupView) (w : World) (size : Limits) →
        IsSound old → length old.nodes ≡ old.size.n → old.size.n ≤ size.n → Shows old w →
        length old.nodes ≤ length journals.now →
        WouldLeaveAhead ⟦<Journal<D> as Stable>⟧ w journals.now →
        ((i : ℕ) (j : _) → slice_get journals.now i ≡ Some j →
        HoldsStopped (⟦<Journal<D> as Stable>⟧.is_clean j)
        (file_state j.journal.conn).may_leave (held (suc i))) →
        ((i : ℕ) → length journals.now ≤ i → i < size.n → HoldsRecords (held (suc i)) []) →
        (v : World) × IsAsStored w v × HasLeft held old v size }
{}

/// The same of a run whose journals are inside stores that may hold records ahead, as the daemon's
/// are. Each node of the group has a store. Its journal has the records ahead already. If it failed
/// to keep them, it has all of them or none. The next start takes the world as the journals have
/// it.
pub fn a_stop_inside_leaves_what_the_next_start_takes<D: NodeDisk>(
    stores: &[AheadStore<Journal<D>>],
)
    ensures { (held : ℕ → Image) (old : GroupView) (w : World) (size : Limits) →
        IsSound old → length old.nodes ≡ old.size.n → old.size.n ≤ size.n → Shows old w →
        length old.nodes ≡ length stores.now →
        WouldLeave (ghosts_over ⟦<Journal<D> as Stable>⟧) w stores.now →
        HaveTails (ghosts_over ⟦<Journal<D> as Stable>⟧) w stores.now →
        ((i : ℕ) (s : _) → slice_get stores.now i ≡ Some s →
        HoldsStopped (⟦<Journal<D> as Stable>⟧.is_clean s.store)
        (file_state s.store.journal.conn).may_leave (held (suc i))) →
        ((i : ℕ) → length stores.now ≤ i → i < size.n → HoldsRecords (held (suc i)) []) →
        (v : World) × IsAsStored w v × HasLeft held old v size }
{}

/// The same of a kill at any moment of a run. The history so far led from the opened group to this
/// one. Each worker is idle, or its store works in a turn, or its store is asked to hold a batch of
/// records ahead. (The law `a_kill_amid_a_batch_leaves_all_or_none` of `urb_turn` says why this
/// covers a kill in the middle of a call.)
pub fn a_kill_leaves_what_the_next_start_takes<D: NodeDisk>(stores: &[AheadStore<Journal<D>>])
    ensures { (held : ℕ → Image) (first old : GroupView) (start : World) (past : List Event)
        (size : Limits) →
        IsSound first → Shows first start → IsLedTo first past old →
        length old.nodes ≡ old.size.n → old.size.n ≤ size.n →
        length old.nodes ≡ length stores.now →
        AreKilledAt (ghosts_over ⟦<Journal<D> as Stable>⟧) first start past stores.now →
        ((i : ℕ) (s : _) → slice_get stores.now i ≡ Some s →
        HoldsStopped (⟦<Journal<D> as Stable>⟧.is_clean s.store)
        (file_state s.store.journal.conn).may_leave (held (suc i))) →
        ((i : ℕ) → length stores.now ≤ i → i < size.n → HoldsRecords (held (suc i)) []) →
        (v : World) × IsAsStored (after start past) v × HasLeft held old v size }
{}

/// A kill may come while a store is asked to hold a batch of records ahead. Then the files of its
/// journal hold the records that the node has stored, or these and the whole batch. They never hold
/// a part of it. If the call was out of place, the store is as before.
pub fn a_kill_amid_a_batch_leaves_files_with_all_or_none<D: NodeDisk>(
    store: &AheadStore<Journal<D>>,
)
    ensures { (image : Image) (first : GroupView) (start : World) (past : List Event) (n : ℕ)
        (batch : List Entry) (before : _) →
        IsSound first → Shows first start →
        IsHoldingAt (ghosts_over ⟦<Journal<D> as Stable>⟧) first start past n batch before
        store.now →
        HoldsStopped (⟦<Journal<D> as Stable>⟧.is_clean store.now.store)
        (file_state store.now.store.journal.conn).may_leave image →
        (store.now ≡ before)
        ⊎ (HoldsRecords image (stored (after start past) n)
        ⊎ HoldsRecords image (stored (after start past) n ++ batch)) }
{}
