//! What playing commands does: each is applied in turn, and their events are a run.
//!
//! A new group shows the new world of its size: the rows that name a world suppose it.
ghost use Rattle.std.specs.Prelude.{[], ◌∷◌, ◌≡◌, Ok, Vec, false, true, ℕ};
ghost use Rattle.urb_names.specs.Names.{name};
ghost use Rattle.urb_names.specs.PacketGrammar.{packet_of};
ghost use Rattle.urb_names.specs.declared.refusal.Refusal.TheVariants as refusal;
ghost use Rattle.urb_node.specs.Replies as told;
ghost use Rattle.urb_node.specs.declared.answer.Answer.TheVariants.{Answered};
ghost use Rattle.urb_group.specs.Commands.{is_no_memory, reply_of};
ghost use Rattle.urb_group.specs.GroupViews.{Shows};
ghost use Rattle.urb_group.specs.PlayedCommands.{EndsEarly, Follows, Plays, Runs, told_in};
ghost use Rattle.urb_group.specs.PlayedRounds.{IsPlayedBusyRound, IsPlayedRound};
ghost use Rattle.urb_group.specs.declared.command.Command.TheVariants as command;
ghost use Rattle.urb_group.specs.declared.reply.Reply.{Reply};
ghost use Rattle.urb_group.specs.declared.reply.Reply.TheVariants as reply;
ghost use Rattle.urb_step_examples.specs.internal.GroupExamples.{another_pending, certified_view, disagreeing};
ghost use Rattle.urb_step_examples.specs.internal.GroupExamples.{group_of_two, group_with, new_cluster};
ghost use Rattle.urb_step_examples.specs.internal.GroupExamples.{misled, new_group, one_pending};
ghost use Rattle.urb_world.specs.MemoryStores.{in_memory};
ghost use Rattle.urb_world.specs.World.{World, started};
ghost use Rattle.urb_world.specs.internal.Examples.{flagged, limits};
ghost use Rattle.urb_world.specs.internal.Scripts.{message};

/// What replies say.
pub fn what_replies_are_told()
    ensures a_node_that_went_down { reply_of {A = Unit {0}} (reply.WentDown 1) ≡ told.WentDown 1 }
    ensures a_node_that_came_up { reply_of {A = Unit {0}} (reply.Up 1) ≡ told.Up 1 }
    ensures refused_memory { is_no_memory {A = Unit {0}} (reply.Refused refusal.NoMemory) ≡ true }
    ensures another_refusal { is_no_memory {A = Unit {0}} (reply.Refused refusal.Busy) ≡ false }
    ensures two_replies { (replies : Vec (Reply (Unit {0})) (Unit {0}))
        → replies.items ≡ reply.Up 1 ∷ reply.Up 2 ∷ []
        → told_in (Ok replies) ≡ told.Up 1 ∷ told.Up 2 ∷ [] }
{}

/// The first commands are applied, one for each reply.
pub fn what_follows_from_commands()
    ensures nothing_from_none { Follows (in_memory (Unit {0})) (new_cluster 4) [] [] (new_cluster 4) }
    ensures no_other_refusal { (w : World) → Shows (new_group 4) w
        → Follows (in_memory (Unit {0})) (new_cluster 4) (command.Tick 0 ∷ [])
        (reply.Refused refusal.Busy ∷ []) (new_cluster 4) → ⊥ }
    ensures no_refused_memory { Follows (in_memory (Unit {0})) (new_cluster 4)
        (command.Tick 1 ∷ []) (reply.Refused refusal.NoMemory ∷ []) (new_cluster 4) → ⊥ }
    ensures no_reply_more { Follows (in_memory (Unit {0})) (new_cluster 4) (command.Tick 0 ∷ [])
        (reply.Refused refusal.BadNode ∷ reply.Refused refusal.BadNode ∷ []) (new_cluster 4) → ⊥ }
{}

/// If memory is refused, the first commands were applied, and there is a next one.
pub fn how_playing_ends_early()
    ensures not_behind_all_commands { EndsEarly (in_memory (Unit {0})) (new_cluster 4) [] []
        (new_cluster 4) → ⊥ }
    ensures not_with_another_reply { (w : World) → Shows (new_group 4) w
        → EndsEarly (in_memory (Unit {0})) (new_cluster 4) (command.Tick 0 ∷ command.Tick 0 ∷ [])
        (reply.Refused refusal.Busy ∷ []) (new_cluster 4) → ⊥ }
    ensures not_with_another_group { EndsEarly (in_memory (Unit {0})) (new_cluster 4)
        (command.Tick 0 ∷ []) [] (new_cluster 3) → ⊥ }
{}

/// If no memory is refused, each command has its reply.
pub fn what_is_played()
    ensures no_other_reply { (w : World) (replies : Vec (Reply (Unit {0})) (Unit {0}))
        → Shows (new_group 4) w → replies.items ≡ reply.Refused refusal.Busy ∷ []
        → Plays (in_memory (Unit {0})) (new_cluster 4) (command.Tick 0 ∷ []) (Ok replies)
        (new_cluster 4) → ⊥ }
    ensures not_without_a_reply { (replies : Vec (Reply (Unit {0})) (Unit {0}))
        → replies.items ≡ []
        → Plays (in_memory (Unit {0})) (new_cluster 4) (command.Tick 0 ∷ []) (Ok replies)
        (new_cluster 4) → ⊥ }
{}

/// No commands lead to a record, to other nodes, or to nodes that disagree. A command is no run if its
/// reply has a packet with a message that the packet's source hasn't stored. The last two begin in
/// worlds that no run reaches.
pub fn what_is_no_run()
    ensures to_a_record { Runs {A = Unit {0}} (started (limits 3 10)) [] []
        (group_with 3 one_pending) → ⊥ }
    ensures to_more_nodes { Runs {A = Unit {0}} (started (limits 3 10)) [] [] (new_group 4) → ⊥ }
    ensures to_nodes_that_disagree { Runs {A = Unit {0}} disagreeing [] []
        (group_of_two 3 (certified_view 1 "") (certified_view 1 "b")) → ⊥ }
    ensures a_message_of_another { (bytes : Vec ℕ (Unit {0}))
        → packet_of bytes.items ≡ Ok (flagged 0 2 1 1 1 (message 7 1 "b"))
        → Runs {A = Unit {0}} misled (command.Arrive 1 bytes ∷ [])
        (told.Same (Answered (name 1 1) (flagged 1 1 2 1 1 (message 7 1 "b") ∷ [])) ∷ [])
        (group_of_two 3 (certified_view 1 "") another_pending) → ⊥ }
{}

/// A command that crashes a node is no part of a round, nor of a busy round.
pub fn what_is_no_played_round()
    ensures a_crash_of_four { IsPlayedRound {A = Unit {0}} (command.Crash 1 ∷ [])
        (told.WentDown 1 ∷ []) (started (limits 4 10)) → ⊥ }
    ensures a_crash_of_four_in_use { IsPlayedBusyRound {A = Unit {0}} (command.Crash 1 ∷ [])
        (told.WentDown 1 ∷ []) (started (limits 4 10)) → ⊥ }
{}
