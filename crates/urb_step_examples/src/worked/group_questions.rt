//! What a group answers to questions, and the words for a node's state.
//!
//! A new group shows the new world of its size: the rows that name both suppose it. The answer of a
//! group that shows no world may be anything.
ghost use Rattle.std.specs.Prelude.{[], ◌∷◌, ◌≡◌, None, Ok, Some, false, true};
ghost use Rattle.urb_names.specs.Names.{name};
ghost use Rattle.urb_node.specs.NodeViews.{no_view};
ghost use Rattle.urb_node.specs.Part.{Down, Ready, Storing};
ghost use Rattle.urb_group.specs.ClusterCalls.{is_fallen, stored_as};
ghost use Rattle.urb_group.specs.GroupCalls.{Answers, CountsOwn, FindsMessage, Holds, TellsLog};
ghost use Rattle.urb_group.specs.GroupStores.{held_draft};
ghost use Rattle.urb_group.specs.GroupViews.{Shows};
ghost use Rattle.urb_group.specs.ReportedStates.{state_of};
ghost use Rattle.urb_group.specs.TailQuestions.{TellsTail};
ghost use Rattle.urb_group.specs.declared.state.State.TheVariants as state;
ghost use Rattle.urb_step_examples.specs.internal.GroupExamples.{drafting, fallen, first_draft, new_group};
ghost use Rattle.urb_step_examples.specs.internal.GroupExamples.{of_no_world};
ghost use Rattle.urb_world.specs.Step.{Commit};
ghost use Rattle.urb_world.specs.World.{started};
ghost use Rattle.urb_world.specs.internal.Examples.{limits, pending};
ghost use Rattle.urb_world.specs.internal.Scripts.{message};

/// The answers for a node are those of every world that the group shows. There is none for node 0.
pub fn what_a_group_answers()
    ensures how_many_nodes { Answers (λ w. Some w.size.n) (of_no_world 4) 1 (Some 3) }
    ensures another_number_of_nodes { Shows (new_group 4) (started (limits 4 10))
        → Answers (λ w. Some w.size.n) (new_group 4) 1 (Some 3) → ⊥ }
    ensures no_log_of_no_node { TellsLog (new_group 4) 0 None }
    ensures a_log_of_a_new_node { Shows (new_group 4) (started (limits 4 10))
        → TellsLog (new_group 4) 1 (Some (name 1 1 ∷ [])) → ⊥ }
    ensures no_message_of_no_node { FindsMessage (new_group 4) 0 (name 1 1) None }
    ensures a_message_of_a_new_node { Shows (new_group 4) (started (limits 4 10))
        → FindsMessage (new_group 4) 1 (name 1 1) (Some (message 7 1 "")) → ⊥ }
    ensures no_count_of_no_node { CountsOwn (new_group 4) 0 None }
    ensures a_count_of_a_new_node { Shows (new_group 4) (started (limits 4 10))
        → CountsOwn (new_group 4) 1 None → ⊥ }
    ensures a_node_of_no_world { Holds (of_no_world 4) 1 (name 1 1) true }
    ensures node_0_holds_nothing { Holds (new_group 4) 0 (name 1 1) false }
    ensures a_new_node_holds_nothing { Shows (new_group 4) (started (limits 4 10))
        → Holds (new_group 4) 1 (name 1 1) true → ⊥ }
    ensures nothing_may_follow_at_no_node { TellsTail (new_group 4) 0 [] false }
    ensures anything_in_no_world { TellsTail (of_no_world 4) 1 [] false }
    ensures something_may_follow_at_no_node { Shows (new_group 4) (started (limits 4 10))
        → TellsTail (new_group 4) 0 [] true → ⊥ }
{}

/// Which node is down, which draft a node holds, and what is reported of a node's state.
pub fn states_of_nodes()
    ensures a_fallen_node_of_four { is_fallen (fallen 4) 1 ≡ true }
    ensures a_ready_node_of_four { is_fallen (new_group 4) 1 ≡ false }
    ensures a_ready_node_of_three { is_fallen (new_group 3) 1 ≡ false }
    ensures a_fourth_of_three { is_fallen (record {
      size = limits 3 10;
      nodes = no_view ∷ no_view ∷ no_view ∷ record no_view { state = Down None } ∷ [];
    }) 4 ≡ false }
    ensures the_held_draft { held_draft (drafting 4 (pending 1 1)) 1 ≡ Some first_draft }
    ensures a_ready_node_is_ready { state_of Ready ≡ state.Ready }
    ensures a_node_with_a_draft_is_storing { state_of (Storing (pending 1 1) None)
        ≡ state.Storing }
    ensures a_node_that_is_down_is_down { state_of (Down None) ≡ state.Down }
    ensures a_stored_draft { stored_as first_draft (Ok tt) ≡ Commit 1 1 (pending 1 1) }
{}
