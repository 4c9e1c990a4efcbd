//! What a group holds in memory, and which worlds it shows.
//!
//! A group shows a world if its memory tells the truth about it. Each row of the second table lies
//! in one thing, so it shows another world or none.
ghost use Rattle.std.specs.Prelude.{[], ◌∷◌, None, ℕ};
ghost use Rattle.urb_names.specs.Names.{name};
ghost use Rattle.urb_node.specs.NodeViews.{ShowsNode, no_view};
ghost use Rattle.urb_node.specs.Part.{Down, opened_node};
ghost use Rattle.urb_stable.specs.declared.record.Record.TheVariants.{Pend};
ghost use Rattle.urb_group.specs.GroupViews.{Shows};
ghost use Rattle.urb_world.specs.World.{image_of, opened, started};
ghost use Rattle.urb_world.specs.internal.Examples.{filled, limits, pending, seen_node, seen_view};
ghost use Rattle.urb_world.specs.internal.Scripts.{message};

/// The memory of a node shows the node. It may forget who acknowledged a certified name. A new
/// group of any size shows a new world.
pub fn what_memory_shows()
    ensures a_node_of_seven { ShowsNode (limits 7 10) 1 seen_view seen_node }
    ensures a_node_of_four { ShowsNode (limits 4 10) 1 seen_view seen_node }
    ensures a_node_of_three { ShowsNode (limits 3 10) 1 seen_view seen_node }
    ensures new_groups { (n cap : ℕ) →
        Shows (record { size = limits n cap; nodes = [] }) (started (limits n cap)) }
{}

/// Memory that lies in one thing doesn't show the node.
pub fn what_memory_does_not_show()
    ensures no_pairs { ShowsNode (limits 7 10) 1 (record seen_view { pairs = [] }) seen_node → ⊥ }
    ensures no_certificates { ShowsNode (limits 7 10) 1 (record seen_view { certified = [] })
        seen_node → ⊥ }
    ensures no_log { ShowsNode (limits 7 10) 1 (record seen_view { log = [] }) seen_node → ⊥ }
    ensures another_count { ShowsNode (limits 7 10) 1 (record seen_view { count = 3 }) seen_node
        → ⊥ }
    ensures another_state { ShowsNode (limits 7 10) 1 (record seen_view { state = Down None })
        seen_node → ⊥ }
    ensures no_cursor { ShowsNode (limits 7 10) 1 (record seen_view { cursor = None }) seen_node
        → ⊥ }
    ensures no_acknowledgements { ShowsNode (limits 7 10) 1 (record seen_view { acks = [] })
        seen_node → ⊥ }
    ensures nothing_heard { ShowsNode (limits 7 10) 1 (record seen_view { heard = [] }) seen_node
        → ⊥ }
    ensures another_broadcast { ShowsNode (limits 7 10) 1 seen_view
        (record seen_node { broadcast = [] }) → ⊥ }
    ensures no_long_payload { ShowsNode (limits 7 10) 2
        (record no_view { count = 1; acks = (name 1 1, 2) ∷ [] })
        (opened_node 2 (Pend (name 1 1) (filled 7 1 1001) ∷ [])) → ⊥ }
    ensures records_that_break_a_rule { ShowsNode (limits 7 10) 1
        (record no_view {
          count = 1;
          pairs = (name 1 2, message 7 2 "") ∷ [];
          acks = (name 1 2, 1) ∷ [];
        }) (opened_node 1 (pending 1 2 ∷ [])) → ⊥ }
    ensures a_name_out_of_range { ShowsNode (limits 7 10) 1
        (record no_view {
          count = 1;
          pairs = (name 8 1, message 7 1 "") ∷ [];
          acks = (name 8 1, 1) ∷ [];
        }) (opened_node 1 (pending 8 1 ∷ [])) → ⊥ }
{}

/// A group whose memory has another size, or no records where the world has one, doesn't show that
/// world.
pub fn what_groups_do_not_show()
    ensures another_size { Shows (record { size = limits 3 10; nodes = [] }) (started (limits 4 10))
        → ⊥ }
    ensures another_size_of_seven { Shows (record { size = limits 7 10; nodes = [] })
        (started (limits 6 10)) → ⊥ }
    ensures another_cap { Shows (record { size = limits 3 11; nodes = [] }) (started (limits 3 10))
        → ⊥ }
    ensures a_record_in_three { Shows (record { size = limits 3 10; nodes = [] })
        (opened (limits 3 10) (image_of ([] ∷ [] ∷ (pending 3 1 ∷ []) ∷ []))) → ⊥ }
    ensures a_record_in_four { Shows (record { size = limits 4 10; nodes = [] })
        (opened (limits 4 10) (image_of ([] ∷ [] ∷ [] ∷ (pending 4 1 ∷ []) ∷ []))) → ⊥ }
    ensures a_record_in_seven { Shows (record { size = limits 7 10; nodes = [] })
        (opened (limits 7 10)
        (image_of ([] ∷ [] ∷ [] ∷ [] ∷ [] ∷ [] ∷ (pending 7 1 ∷ []) ∷ []))) → ⊥ }
{}
