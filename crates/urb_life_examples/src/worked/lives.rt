//! Worlds that a life reaches since stores held records ahead, and worlds that no life reaches.
//!
//! Each row names the first world, and one that may come later or can't.
ghost use Rattle.std.specs.Prelude.{[], ◌∷◌};
ghost use Rattle.urb_daemon.specs.Lives.{Lives};
ghost use Rattle.urb_life_examples.specs.internal.ExampleWorlds.{holding_one, without_packets};
ghost use Rattle.urb_world.specs.World.{World, image_of, opened, started};
ghost use Rattle.urb_world.specs.internal.Examples.{certified, limits, pending};

/// Worlds that a life reaches. The packets of some worlds are lost in no other way: a run only adds
/// packets, and no start opens a world whose records are a misfit.
pub fn what_a_life_reaches()
    ensures where_it_begins { (w : World) → Lives w w }
    ensures its_packets_are_lost { (w : World) → Lives w (without_packets w) }
    ensures one_ahead_of_one { Lives (started (limits 1 10)) (holding_one 1) }
    ensures one_ahead_of_three { Lives (started (limits 3 10)) (holding_one 3) }
    ensures one_ahead_of_four { Lives (started (limits 4 10)) (holding_one 4) }
    ensures one_ahead_of_seven { Lives (started (limits 7 10)) (holding_one 7) }
{}

/// Worlds that no life reaches, because a record is lost or is a misfit, or because nodes are lost.
pub fn what_no_life_reaches()
    ensures a_record_of_three_is_lost { Lives (holding_one 3) (started (limits 3 10)) → ⊥ }
    ensures a_record_of_four_is_lost { Lives (holding_one 4) (started (limits 4 10)) → ⊥ }
    ensures a_record_of_seven_is_lost { Lives (holding_one 7) (started (limits 7 10)) → ⊥ }
    ensures a_misfit_of_four { Lives (started (limits 4 10))
        (opened (limits 4 10) (image_of ((certified 1 1 ∷ []) ∷ []))) → ⊥ }
    ensures the_second_alone_of_six { Lives (started (limits 6 10))
        (opened (limits 6 10) (image_of ((pending 1 2 ∷ []) ∷ []))) → ⊥ }
    ensures fewer_nodes_than_three { Lives (started (limits 3 10)) (started (limits 2 10)) → ⊥ }
    ensures fewer_nodes_than_four { Lives (started (limits 4 10)) (started (limits 3 10)) → ⊥ }
{}
