//! What follows from turns of one worker, and of several at the same time.
//!
//! These functions are for proofs alone, since they do nothing.

ghost use Rattle.std.specs.Prelude.{◌≡◌, ◌≢◌, ◌++◌, ◌∷◌, ◌⊎◌, [], List, Some, slice_get, suc, true};
ghost use Rattle.std.specs.Prelude.{Option, ℕ};
ghost use Rattle.std.specs.declared.alloc.Global.{Global};
ghost use Rattle.urb_names.specs.declared.refusal.Refusal.TheVariants.{Stale};
ghost use Rattle.urb_stable.specs.AheadStores.{AheadView, ghosts_over};
ghost use Rattle.urb_stable.specs.Doubts.{Doubted};
ghost use Rattle.urb_stable.specs.Entries.{Entry};
ghost use Rattle.urb_stable.specs.PlacedRecords.{Placed};
ghost use Rattle.urb_stable.specs.StableStorage.{refusal_of};
ghost use Rattle.urb_node.specs.Replies.{Done};
ghost use Rattle.urb_group.specs.GroupStores.{Clustered};
ghost use Rattle.urb_group.specs.GroupViews.{GroupView, IsSound, Shows};
ghost use Rattle.urb_world.specs.Step.{Event};
ghost use Rattle.urb_world.specs.RecoveryPlans.{after};
ghost use Rattle.urb_group.specs.StoreContents.{IsSecured, WouldLeave};
ghost use Rattle.urb_world.specs.ProcessStops.{GoesOnIn, MayLeave};
ghost use Rattle.urb_world.specs.World.{World};
ghost use Rattle.urb_group.specs.declared.reply.Reply.TheVariants.{Refused, Stored};
ghost use Rattle.urb_turn.specs.Changes.{HasChanged, change_of};
ghost use Rattle.urb_turn.specs.Jobs.{runs_at};
ghost use Rattle.urb_turn.specs.Views.{FinishedView};
ghost use Rattle.urb_names.specs.declared.refusal.NoMemory.{NoMemory};
ghost use Rattle.urb_turn.specs.KeptTails.{Prepares};
ghost use Rattle.urb_turn.specs.KilledBatches.{AreKilledAt, IsHoldingAt, LeavesAllOrNone};
ghost use Rattle.urb_turn.specs.KilledStores.{AreCutAt, IsCutAt};
ghost use Rattle.urb_turn.specs.NodeStores.{HasRested, HaveTails, IsStoreAfter, LeavesAfter};
ghost use Rattle.urb_turn.specs.NodeStores.{WouldHaveTail};
ghost use Rattle.urb_turn.specs.WholeTurns.{IsTurn, IsTurnAt};
ghost use Rattle.urb_turn.specs.declared.change.Change.{Change};
ghost use Rattle.urb_turn.specs.declared.change.Change.TheVariants.{Failed};
ghost use Rattle.urb_turn.specs.declared.job.Job.{Job};
ghost use Rattle.urb_turn.specs.declared.turn_stages.Stage.TheVariants.{Doubtful, Drafted, Kept};

use std::alloc::Global;
use urb_stable::Stable;

/// If a turn's reply is that a record is stored, the turn drafted this record and had its store
/// take it. The store, if it is honest, then has the record for certain.
pub fn what_is_told_as_stored_is_kept<S: Stable<Alloc = Global>>()
    ensures { (opened : GroupView) (job : Job) (before after : S) (came : FinishedView)
        (done : Done)
        (turn : IsTurn S.Stable opened job before after came)
        → came.reply ≡ Stored done
        → (draft : Placed) × (turn.at ≡ Drafted draft) × (turn.new ≡ Kept draft)
        × (S.is_honest after → S.certain after ≡ S.certain before ++ draft.entry ∷ []) }
{}

/// What `change_of` reports about a turn has happened in it. It reports each store that failed,
/// unless its node had gone down before: then the turn is stale.
pub fn what_is_reported_has_happened<S: Stable<Alloc = Global>>()
    ensures happened { (opened : GroupView) (job : Job) (before after : S) (came : FinishedView)
        (change : Change)
        (turn : IsTurn S.Stable opened job before after came)
        → came.job ≡ job
        → change_of came ≡ Some change
        → HasChanged change turn.lent.group turn.given_back.group turn.lent_again.group
        turn.left.group }
    ensures failed { (opened : GroupView) (job : Job) (before after : S) (came : FinishedView)
        (doubt : Doubted)
        (turn : IsTurn S.Stable opened job before after came)
        → came.job ≡ job
        → turn.new ≡ Doubtful doubt
        → came.reply ≢ Refused Stale
        → change_of came ≡ Some (Failed doubt.node (refusal_of doubt.fault)) }
{}

/// The turns of other workers do no more to a node than crash it.
pub fn other_workers_let_a_node_rest<S: Stable<Alloc = Global>>()
    ensures turn { (opened : GroupView) (n m : ℕ) (job : Job) (before after : S)
        (came : FinishedView)
        (turn : IsTurn S.Stable opened job before after came)
        → runs_at m job ≡ true
        → n ≢ m
        → HasRested n turn.lent.past turn.given_back.past
        × HasRested n turn.lent_again.past turn.left.past }
    ensures none { (n : ℕ) (past : List Event) → HasRested n past past }
    ensures on { (n : ℕ) (first second third : List Event)
        → HasRested n first second → HasRested n second third → HasRested n first third }
{}

/// While a node rests, its store still matches it, and a stop leaves what it may leave of the node.
/// Each store of an opened cluster matches its node, if it holds no records ahead.
pub fn a_store_stays_that_of_its_node<S: Stable<Alloc = Global>>()
    ensures opened { (cluster : Clustered S) (i : ℕ) (store : S)
        (secured : IsSecured S.Stable cluster)
        → slice_get cluster.stores i ≡ Some store
        → S.ahead store ≡ []
        → IsStoreAfter S.Stable secured.stocked.world [] (suc i) store }
    ensures rests { (n : ℕ) (start : World) (earlier later : List Event) (store : S)
        → IsStoreAfter S.Stable start earlier n store
        → HasRested n earlier later
        → IsStoreAfter S.Stable start later n store }
    ensures left { (n : ℕ) (start : World) (past : List Event) (store : S)
        → IsStoreAfter S.Stable start past n store
        → LeavesAfter S.Stable start past n store }
    ensures leaves { (n : ℕ) (start : World) (earlier later : List Event) (store : S)
        → LeavesAfter S.Stable start earlier n store
        → HasRested n earlier later
        → LeavesAfter S.Stable start later n store }
{}

/// While a store works in a turn, and while its node rests, the records that it holds ahead may
/// follow those of the node. So a stop is survived, though it leaves them.
pub fn what_is_ahead_may_follow<S: Stable<Alloc = Global>>()
    ensures idle { (start : World) (past : List Event) (n : ℕ) (store : S)
        → IsStoreAfter S.Stable start past n store
        → WouldHaveTail S.Stable (after start past) n store }
    ensures working { (opened : GroupView) (start : World) (n : ℕ) (job : Job) (before kept : S)
        (came : FinishedView)
        (turn : IsTurn S.Stable opened job before kept came)
        → runs_at n job ≡ true
        → Shows opened start
        → IsStoreAfter S.Stable start turn.lent.past n before
        → WouldHaveTail S.Stable (after start turn.given_back.past) n kept }
    ensures rests { (start : World) (earlier later : List Event) (n : ℕ) (store : S)
        → WouldHaveTail S.Stable (after start earlier) n store
        → HasRested n earlier later
        → WouldHaveTail S.Stable (after start later) n store }
{}

/// The process may be killed at any moment of a run. The history so far led to a world. In each
/// store the kill leaves what it may leave of the world's node, whether the node's worker is idle or
/// its store works.
pub fn a_kill_leaves_what_a_stop_may_leave<S: Stable<Alloc = Global>>()
    ensures idle { (start : World) (last past : List Event) (n : ℕ) (store : S)
        → IsStoreAfter S.Stable start last n store
        → HasRested n last past
        → IsCutAt S.Stable start past n store }
    ensures working { (opened : GroupView) (start : World) (past : List Event) (n : ℕ) (job : Job)
        (before after : S) (came : FinishedView)
        (at : IsTurnAt S.Stable opened n job before after came)
        → Shows opened start
        → IsStoreAfter S.Stable start at.turn.lent.past n before
        → HasRested n at.turn.given_back.past past
        → IsCutAt S.Stable start past n after }
    ensures left { (start : World) (past : List Event) (stores : List S)
        → AreCutAt S.Stable start past stores
        → WouldLeave S.Stable (after start past) stores }
{}

/// The process may be killed while a store is asked to hold records ahead, and so in the middle of
/// the one call by which its storage keeps them. After a kill nothing more is written. So the kill
/// leaves what the call leaves if the storage fails from that moment on. These clauses speak of
/// every answer of the call, and so of that failure too.
///
/// A worker that prepares its store asks it in this way, or leaves it as it is (`asked`). The store
/// still matches its node. If it holds the batch over an inner store, a stop leaves there the
/// node's records, followed by all records of the batch or by none. If the call was out of place,
/// the store is as before.
pub fn a_kill_amid_a_batch_leaves_all_or_none<S: Stable<Alloc = Global>>()
    ensures asked { (opened : GroupView) (start : World) (past : List Event) (n : ℕ)
        (events : List Event) (refused : Option NoMemory) (before new : S)
        (prepares : Prepares S.Stable opened n events refused before new)
        → IsStoreAfter S.Stable start prepares.past n before
        → HasRested n prepares.past past
        → (new ≡ before)
        ⊎ IsHoldingAt S.Stable opened start past n prepares.holds.records before new }
    ensures matches { (opened : GroupView) (start : World) (past : List Event) (n : ℕ)
        (batch : List Entry) (before new : S)
        → IsSound opened → Shows opened start
        → IsHoldingAt S.Stable opened start past n batch before new
        → IsStoreAfter S.Stable start past n new × IsCutAt S.Stable start past n new }
    ensures all_or_none { (opened : GroupView) (start : World) (past : List Event) (n : ℕ)
        (batch : List Entry) (before new : AheadView S)
        → IsSound opened → Shows opened start
        → IsHoldingAt (ghosts_over S.Stable) opened start past n batch before new
        → S.is_clean new.store
        → (new ≡ before)
        ⊎ LeavesAllOrNone S.Stable (after start past) n batch new.store }
{}

/// The process may be killed at any moment of a run: while a worker is idle, while its store works
/// in a turn, and while its store is asked to hold records ahead. The history so far leads to a
/// world. In each store the kill leaves what it may leave of the world's node. What the store holds
/// ahead may follow the node's records.
pub fn a_kill_at_any_moment_leaves_what_may_follow<S: Stable<Alloc = Global>>()
    ensures leaves { (opened : GroupView) (start : World) (past : List Event) (stores : List S)
        → IsSound opened
        → Shows opened start
        → AreKilledAt S.Stable opened start past stores
        → WouldLeave S.Stable (after start past) stores }
    ensures ahead { (opened : GroupView) (start : World) (past : List Event) (stores : List S)
        → IsSound opened
        → Shows opened start
        → AreKilledAt S.Stable opened start past stores
        → HaveTails S.Stable (after start past) stores }
{}

/// What a stop of all nodes may leave, node by node, fits together. It opens a group that goes on
/// from where this one was.
pub fn a_stop_of_all_nodes_is_survived()
    ensures { (group : GroupView) (images : ℕ → List Entry)
        → IsSound group
        → ((p : ℕ) → (w : World) × Shows group w × MayLeave (w.node p) (images p))
        → (w : World) × Shows group w × GoesOnIn w images }
{}
