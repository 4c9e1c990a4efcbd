//! What holds for every group, whatever calls led to it.

ghost use Rattle.std.specs.Prelude.{◌≡◌, ℕ, length};
ghost use Rattle.urb_names.specs.LabelsAndContents.{Content, Label};
ghost use Rattle.urb_node.specs.Replies.{Same};
ghost use Rattle.urb_node.specs.declared.answer.Answer.TheVariants.{Accepted};
ghost use Rattle.urb_world.specs.Acceptance.{HasStored};
ghost use Rattle.urb_world.specs.RunMoments.{AgreeInTime};
ghost use Rattle.urb_world.specs.SafetyProperties.{OneMessage, Safe};
ghost use Rattle.urb_group.specs.GroupViews.{IsSound, Shows};
ghost use Rattle.urb_world.specs.Step.{Submit, step};
ghost use Rattle.urb_world.specs.ProcessStops.{SurvivesStop};
ghost use Rattle.urb_world.specs.World.{World};

use crate::Group;
use std::alloc::Allocator;

impl<A: Allocator + Copy> Group<A> {
    /// Does nothing at run time; it brings the value's invariant into the proof: every group is
    /// sound. So every world that it shows is safe, has one message per name, has logs that agree,
    /// and survives a stop. In such a world a repeat is accepted only if its message is stored
    /// (sections 3.7 and 3.9 of the textbook).
    pub fn recall(&self)
        ensures counted { length self.now.nodes ≡ self.now.size.n }
        ensures sound { IsSound self.now }
        ensures safe { (w : World) → Shows self.now w → Safe w }
        ensures one_message { (w : World) → Shows self.now w → OneMessage w }
        ensures agree { (w : World) → Shows self.now w → AgreeInTime w w }
        ensures stop { (w : World) → Shows self.now w → SurvivesStop w }
        ensures accepted { (w : World) (p : ℕ) (m : Content) (x : Label) →
            Shows self.now w → (step w (Submit p m)).0 ≡ Same (Accepted x) → HasStored w p x m }
    {
        let _nodes = &self.nodes;
    }
}
