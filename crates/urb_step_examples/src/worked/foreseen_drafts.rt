//! What is foreseen of one event, and why nothing is foreseen of it.
//!
//! A new group shows the new world of its size, and a run leads to that world: the rows that name
//! these suppose it.
ghost use Rattle.std.specs.Prelude.{[], ◌∷◌, ◌≡◌, Ok};
ghost use Rattle.urb_foresight.specs.ForeseenDrafts.{Drafts, DraftsNone, HangsOnCounts};
ghost use Rattle.urb_foresight.specs.ForeseenDrafts.{IsOnceStored, IsReadyNode, IsUnforeseeable};
ghost use Rattle.urb_foresight.specs.ForeseenDrafts.{OnceStored, SaysMore};
ghost use Rattle.urb_foresight.specs.internal.ForesightExamples.{all_down, four_nodes};
ghost use Rattle.urb_foresight.specs.internal.ForesightExamples.{having_counted, having_stored};
ghost use Rattle.urb_foresight.specs.internal.ForesightExamples.{the_first};
ghost use Rattle.urb_group.specs.GroupViews.{Shows};
ghost use Rattle.urb_names.specs.Names.{name};
ghost use Rattle.urb_stable.specs.declared.record.Record.TheVariants.{Pend};
ghost use Rattle.urb_step_examples.specs.internal.ForeseenExamples.{all_drafting, held_by_two};
ghost use Rattle.urb_step_examples.specs.internal.ForeseenExamples.{one_certified, one_of_four};
ghost use Rattle.urb_step_examples.specs.internal.ForeseenExamples.{sixteen};
ghost use Rattle.urb_step_examples.specs.internal.GroupExamples.{group_with, new_group};
ghost use Rattle.urb_step_examples.specs.internal.GroupExamples.{one_pending};
ghost use Rattle.urb_world.specs.Step.{Arrive, IsReached, Submit, Tick};
ghost use Rattle.urb_world.specs.World.{started};
ghost use Rattle.urb_world.specs.internal.Examples.{empty_packet, filled, flagged, limits};
ghost use Rattle.urb_world.specs.internal.Examples.{pending};
ghost use Rattle.urb_world.specs.internal.Scripts.{message};

/// Another node may have stored a name newly, if the name is certified at node 1, or if node 1
/// hasn't counted that node. A long message is no exception.
pub fn later_worlds_of_counted_nodes()
    ensures of_a_certified_name { IsOnceStored (having_stored (one_certified ∷ [])) 1 []
        (having_counted (one_certified ∷ the_first ∷ [])) }
    ensures not_of_a_long_message { IsOnceStored
        (having_stored ((Pend (name 1 1) (filled 7 1 1001) ∷ []) ∷ [])) 1 []
        (having_counted ((Pend (name 1 1) (filled 7 1 1001) ∷ [])
        ∷ (Pend (name 1 1) (filled 7 1 1001) ∷ []) ∷ [])) → ⊥ }
{}

/// What is so once records are stored is so of the worlds of the group's limits.
pub fn what_is_so_once_records_are_stored()
    ensures the_limits { OnceStored (new_group 4) 1 [] (λ v. v.size ≡ limits 4 10) }
    ensures nothing_false { Shows (new_group 4) four_nodes → IsReached four_nodes
        → OnceStored (new_group 4) 1 [] (λ v. ⊥) → ⊥ }
{}

/// An event drafts a record if the reply says so, and the node then holds just this record.
pub fn what_an_event_drafts()
    ensures a_submit { Drafts 1 (Submit 1 (message 7 1 "")) (pending 1 1) four_nodes }
    ensures not_what_is_held_before { Drafts 1 (Tick 2) (pending 1 1) all_drafting → ⊥ }
    ensures not_another_message { Drafts 1 (Submit 1 (message 7 1 ""))
        (Pend (name 1 1) (message 7 1 "b")) four_nodes → ⊥ }
    ensures nothing_by_a_tick { DraftsNone 1 (Tick 1) four_nodes }
    ensures something_by_a_submit { DraftsNone 1 (Submit 1 (message 7 1 "")) four_nodes → ⊥ }
{}

/// A node is ready if the group has it, and if it is neither down nor storing.
pub fn nodes_that_are_ready()
    ensures the_fourth { IsReadyNode 4 four_nodes }
    ensures not_the_fifth { IsReadyNode 5 four_nodes → ⊥ }
    ensures not_one_that_is_down { IsReadyNode 1 all_down → ⊥ }
{}

/// Two nodes are no majority, and a certificate of the packet's name may follow. It doesn't matter
/// whether the name is pending already, or once the records that were foreseen are stored.
pub fn what_hangs_on_counts()
    ensures a_name_that_will_be_pending { HangsOnCounts held_by_two 1 (pending 2 1 ∷ [])
        (Arrive 1 (Ok (flagged 0 3 1 2 1 (message 7 1 "")))) }
    ensures nothing_at_a_lone_node { Shows (new_group 1) (started (limits 1 10))
        → HangsOnCounts (new_group 1) 1 the_first (Arrive 1 (Ok (empty_packet 0 1 1))) → ⊥ }
    ensures no_name_that_the_node_lacks { Shows (new_group 4) four_nodes
        → HangsOnCounts (new_group 4) 1 [] (Arrive 1 (Ok (empty_packet 0 2 1))) → ⊥ }
    ensures no_tick { HangsOnCounts (new_group 4) 1 [] (Tick 1) → ⊥ }
{}

/// The packet is for the node, and its source hasn't stored what it says.
pub fn what_says_more()
    ensures a_message_of_nobody { SaysMore (new_group 4) 1 (Arrive 1 (Ok (empty_packet 0 2 1))) }
    ensures not_for_another_node { Shows (new_group 4) four_nodes → IsReached four_nodes
        → SaysMore (new_group 4) 1 (Arrive 1 (Ok (empty_packet 0 2 3))) → ⊥ }
    ensures not_a_stored_message { Shows (group_with 4 one_pending) one_of_four
        → IsReached one_of_four
        → SaysMore (group_with 4 one_pending) 2 (Arrive 2 (Ok (empty_packet 0 1 2))) → ⊥ }
    ensures no_tick { SaysMore (new_group 4) 1 (Tick 1) → ⊥ }
{}

/// Nothing is foreseen behind sixteen records. Something is foreseen of a ready node's tick.
pub fn what_is_unforeseeable()
    ensures behind_sixteen { IsUnforeseeable (new_group 4) 1 sixteen (Tick 1) }
    ensures no_tick_of_a_ready_node { Shows (new_group 4) four_nodes → IsReached four_nodes
        → IsUnforeseeable (new_group 4) 1 [] (Tick 1) → ⊥ }
{}
