//! The laws of scripts, in other words.
//!
//! The laws are proved elsewhere (`run` of `urb_script`). So each row supposes what it
//! concludes, and names it in another order.
ghost use Rattle.std.specs.Prelude.{◌∷◌, ◌++◌, ◌≡◌, List, None, Option, Some, ℕ};
ghost use Rattle.urb_script.specs.Commands.{Log, Spells};
ghost use Rattle.urb_script.specs.LogLines.{AreShownAgreeing, IsShownSafe, LogsAgree, LogsAreSafe};
ghost use Rattle.urb_script.specs.Scripts.{Answers, HasOneOutcome, StaysSafe, WholeScript};
ghost use Rattle.urb_script.specs.Steps.{Plays, Takes};
ghost use Rattle.urb_script.specs.declared.runs.RunEnd.{RunEnd};
ghost use Rattle.urb_world.specs.SafetyProperties.{Safe};
ghost use Rattle.urb_world.specs.Scenes.{Scene};

/// What is so of each script that is answered is a law of all scripts.
pub fn laws_of_answered_scripts()
    ensures a_safe_world { ((scene : Scene) (lines : List (List ℕ)) (output : List ℕ)
        → Answers Takes None lines output (Some scene) → Safe scene.world) → StaysSafe }
    ensures a_safe_log { ((line output : List ℕ) (p : ℕ) → Spells line (Log p)
        → (earlier later : List (List ℕ)) (state : Option Scene)
        → Answers Takes None (earlier ++ line ∷ later) output state
        → IsShownSafe earlier p output) → LogsAreSafe }
    ensures two_logs_that_agree { ((line other output : List ℕ) (p q : ℕ) → Spells line (Log p)
        → Spells other (Log q) → (earlier between later : List (List ℕ)) (state : Option Scene)
        → Answers Takes None (earlier ++ line ∷ (between ++ other ∷ later)) output state
        → AreShownAgreeing earlier between p q output) → LogsAgree }
    ensures one_outcome { ((input before : List ℕ) (ended : RunEnd) (unread after : List ℕ)
        → WholeScript Plays input ended unread (Some before) (Some after)
        → (other : RunEnd) (left later : List ℕ)
        → WholeScript Plays input other left (Some before) (Some later)
        → (ended ≡ other) × (after ≡ later)) → HasOneOutcome }
{}
