//! Words of events, of what nodes send, and of plans of recoveries.
//!
//! Each row is one case of a word.
ghost use Rattle.std.specs.Prelude.{[], ◌∷◌, ◌≡◌, None, Some, true};
ghost use Rattle.urb_names.specs.Names.{name};
ghost use Rattle.urb_node.specs.Part.{Storing, opened_node};
ghost use Rattle.urb_stubborn.specs.Resends.{tick_packets};
ghost use Rattle.urb_world.specs.EventEffects.{StoresNothing};
ghost use Rattle.urb_world.specs.HeardCertificates.{HearsOfPending};
ghost use Rattle.urb_world.specs.RecoveryPlans.{image_with, packets_of};
ghost use Rattle.urb_world.specs.Scenes.{flags_with, keeping};
ghost use Rattle.urb_world.specs.Step.{Crash, Fail, Tick};
ghost use Rattle.urb_world.specs.World.{image_of, opened};
ghost use Rattle.urb_world.specs.internal.Examples.{empty_packet, limits, node_in, pending, world_of};
ghost use Rattle.urb_world.specs.internal.Scripts.{message};

/// Which events store nothing, what nodes have heard, and what a tick sends.
pub fn words_of_events()
    ensures a_tick { StoresNothing (Tick 1) }
    ensures a_failed_store { StoresNothing (Fail 1) }
    ensures a_crash { StoresNothing (Crash 1) }
    ensures nothing_heard { HearsOfPending (opened_node 1 []) }
    ensures two_packets { tick_packets (record {
      limits = limits 3 10;
      node = 1;
      cursor = None;
      heard = [];
      roomy = [];
    })
        ((name 1 1, message 7 1 "") ∷ []) []
        ≡ empty_packet 0 1 2 ∷ empty_packet 0 1 3 ∷ [] }
    ensures two_packets_of_a_tick { packets_of
        (opened (limits 3 10) (image_of ((pending 1 1 ∷ []) ∷ []))) (Tick 1 ∷ [])
        ≡ empty_packet 0 1 2 ∷ empty_packet 0 1 3 ∷ [] }
{}

/// What a storage holds, and the flags of a packet.
pub fn words_of_storages()
    ensures a_kept_doubt { image_with true (pending 1 1 ∷ []) (Some (pending 1 2))
        ≡ pending 1 1 ∷ pending 1 2 ∷ [] }
    ensures a_taken_record { keeping 1 (record {
      world = world_of (node_in (Storing (pending 1 2) None) []);
      storage = λ p. pending 1 1 ∷ [];
    }) 1 ≡ pending 1 1 ∷ pending 1 2 ∷ [] }
    ensures no_flags_of_a_short_payload { flags_with None (message 7 1 "") ≡ None }
{}
