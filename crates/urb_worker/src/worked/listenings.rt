//! Worked examples of listeners: when a group that runs has all of them.
//!
//! Each of the rows that end in ⊥ lacks one of the parts.
ghost use Rattle.std.specs.Prelude.{◌≡◌};
ghost use Rattle.urb_worker.specs.declared.listeners.GroupListening.{GroupListening};
ghost use Rattle.urb_worker.specs.internal.Listenings.{HasAll};

/// A group has all its listeners if those of its last node were started, and its timer ticks at each
/// node, at the pace that was asked.
pub fn groups_with_all_listeners()
    ensures of_one { (it : GroupListening) → it.listening.last ≡ 1 → it.ticking.nodes ≡ 1
        → it.ticking.millis ≡ 10 → HasAll 1 10 it }
    ensures of_four { (it : GroupListening) → it.listening.last ≡ 4 → it.ticking.nodes ≡ 4
        → it.ticking.millis ≡ 100 → HasAll 4 100 it }
    ensures of_seven { (it : GroupListening) → it.listening.last ≡ 7 → it.ticking.nodes ≡ 7
        → it.ticking.millis ≡ 5000 → HasAll 7 5000 it }
{}

/// A group lacks a listener if its last node has none, if its timer leaves out that node, or if it
/// ticks at another pace.
pub fn groups_that_lack_a_listener()
    ensures at_a_single_node { (it : GroupListening) → it.listening.last ≡ 0 → HasAll 1 10 it → ⊥ }
    ensures at_the_last_of_four { (it : GroupListening) → it.listening.last ≡ 3 → HasAll 4 100 it → ⊥ }
    ensures at_the_last_of_seven { (it : GroupListening) → it.listening.last ≡ 6
        → HasAll 7 5000 it → ⊥ }
    ensures ticks_at_a_single_node { (it : GroupListening) → it.ticking.nodes ≡ 0
        → HasAll 1 10 it → ⊥ }
    ensures ticks_at_the_last_of_four { (it : GroupListening) → it.ticking.nodes ≡ 3
        → HasAll 4 100 it → ⊥ }
    ensures ticks_at_a_slower_pace { (it : GroupListening) → it.ticking.millis ≡ 200
        → HasAll 4 100 it → ⊥ }
    ensures ticks_at_a_faster_pace { (it : GroupListening) → it.ticking.millis ≡ 5
        → HasAll 1 10 it → ⊥ }
{}
