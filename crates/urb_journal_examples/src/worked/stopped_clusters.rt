//! Worked examples of a stop of a whole cluster: how the next cluster goes on.
//!
//! A new group shows the new world of its size: the rows that name both suppose it.
ghost use Rattle.std.specs.Prelude.{[], ◌∷◌};
ghost use Rattle.urb_names.specs.declared.refusal.Refusal.TheVariants.{BadNode, Busy};
ghost use Rattle.urb_node.specs.Replies.{Refused};
ghost use Rattle.urb_stable.specs.MemoryStores.{empty_memory};
ghost use Rattle.urb_group.specs.GroupViews.{Shows};
ghost use Rattle.urb_group.specs.StoreContents.{IsSecured};
ghost use Rattle.urb_group.specs.StoreOpenings.{ContinuesFrom};
ghost use Rattle.urb_group.specs.declared.command.Command.TheVariants.{Tick};
ghost use Rattle.urb_cluster_stop.specs.ClusterStops.{GoesOnBehind, GoesOnFrom, IsContinuation};
ghost use Rattle.urb_world.specs.MemoryStores.{in_memory};
ghost use Rattle.urb_world.specs.World.{started};
ghost use Rattle.urb_world.specs.internal.Examples.{limits};
ghost use Rattle.urb_journal_examples.specs.internal.GroupValues.{clustered, new_group};
ghost use Rattle.urb_journal_examples.specs.internal.GroupValues.{of_no_world, unclean};

/// A group continues from a world over some stores.
pub fn what_continues()
    ensures a_group_of_four { ContinuesFrom (in_memory (Unit {0})) (started (limits 4 10)) []
        (new_group 4)
        → IsContinuation (in_memory (Unit {0})) (started (limits 4 10)) (new_group 4) }
    ensures no_group_of_no_world { IsContinuation (in_memory (Unit {0})) (started (limits 3 10))
        (of_no_world 3) → ⊥ }
    ensures no_group_of_four_of_no_world { IsContinuation (in_memory (Unit {0}))
        (started (limits 4 10)) (of_no_world 4) → ⊥ }
{}

/// The next cluster goes on from the world before, if its stores are clean.
pub fn what_goes_on()
    ensures anything_over_unclean_stores { GoesOnFrom unclean (clustered (new_group 3) [])
        (clustered (of_no_world 3) (empty_memory ∷ [])) }
    ensures anything_behind_no_world { GoesOnBehind (in_memory (Unit {0}))
        (clustered (of_no_world 3) []) (Tick 1) (Refused Busy) (clustered (of_no_world 3) []) }
    ensures not_behind_another_reply { Shows (new_group 3) (started (limits 3 10))
        → GoesOnBehind (in_memory (Unit {0})) (clustered (new_group 3) []) (Tick 9) (Refused Busy)
        (clustered (new_group 3) []) → ⊥ }
    ensures no_group_of_no_world { IsSecured (in_memory (Unit {0})) (clustered (new_group 3) [])
        → GoesOnBehind (in_memory (Unit {0})) (clustered (new_group 3) []) (Tick 9)
        (Refused BadNode) (clustered (of_no_world 3) []) → ⊥ }
{}
