//! Which feeds a node has, and which portions come of them.
//!
//! A new group is sound, and shows the new world of its size: the rows that name these suppose it.
//! A history leads from a group that shows no world to any group.
ghost use Rattle.std.specs.Prelude.{[], ◌∷◌};
ghost use Rattle.urb_group.specs.GroupViews.{IsSound, Shows};
ghost use Rattle.urb_show.specs.internal.ReaderExamples.{new_four, shows_none};
ghost use Rattle.urb_turn.specs.NodeFeeds.{BeginsFeed, IsFeedOf, IsNextPortion};
ghost use Rattle.urb_turn.specs.internal.TurnExamples.{four};
ghost use Rattle.urb_turn_examples.specs.internal.TurnWords.{feed_of, no_nodes};
ghost use Rattle.urb_world.specs.World.{World};
ghost use Rattle.urb_world.specs.internal.Examples.{empty_packet};

/// A feed begins before the first name, and ends with the last one of a sound group to which the
/// opened one led.
pub fn feeds_that_begin()
    ensures of_a_new_group { IsSound new_four → BeginsFeed new_four 1 (feed_of 1 0 0) }
    ensures not_of_no_world { BeginsFeed shows_none 1 (feed_of 1 0 0) → ⊥ }
    ensures not_up_to_a_later_end { Shows new_four four → BeginsFeed new_four 1 (feed_of 1 0 5)
        → ⊥ }
    ensures not_behind_a_name { IsFeedOf shows_none 1 (feed_of 1 5 5) → ⊥ }
    ensures not_of_another_group { (w : World) → Shows no_nodes w
        → IsFeedOf no_nodes 1 (feed_of 1 0 5) → ⊥ }
{}

/// A portion is one of a sound group to which the opened one led, for the feed's target.
pub fn portions_that_come_next()
    ensures no_packets_without_a_number { IsNextPortion shows_none (feed_of 1 0 0) (feed_of 1 0 0)
        (empty_packet 0 2 1 ∷ []) → ⊥ }
    ensures not_of_another_target { IsNextPortion shows_none (feed_of 1 0 0) (feed_of 2 0 0) []
        → ⊥ }
    ensures no_packets_of_another_group { (w : World) → Shows no_nodes w
        → IsNextPortion no_nodes (feed_of 1 0 5) (feed_of 1 5 5) (empty_packet 0 2 1 ∷ []) → ⊥ }
{}
