//! The law that no input of a session says two things, in other words.
//!
//! The law is proved elsewhere (`sessions.rt` of `urb_client`). So the row supposes what it
//! concludes, and names it in another order.
ghost use Rattle.std.specs.Prelude.{◌≡◌, List, ℕ};
ghost use Rattle.urb_client.specs.Sessions.{Event, IsReadOnce, Reads};
ghost use Rattle.urb_client.specs.declared.sessions.Ended.{Ended};
ghost use Rattle.urb_client.specs.declared.sessions.Ended.TheVariants.{BadFrame, Closed};

/// What is so of each reading of an input is the law.
pub fn readings_of_an_input()
    ensures all_the_same { ((input : List ℕ) (ended : Ended) (events : List Event) (left : List ℕ)
        → Reads input ended events left
        → (other : Ended) (others : List Event) (rest : List ℕ) → Reads input other others rest
        → (ended ≡ other) × (events ≡ others) × (left ≡ rest)) → IsReadOnce }
    ensures not_with_two_ends { IsReadOnce → (input : List ℕ) (events others : List Event)
        (left rest : List ℕ) → Reads input Closed events left → Reads input BadFrame others rest
        → ⊥ }
{}
