//! What a promised world gives to readers, and what its words are false of.
ghost use Rattle.std.specs.Prelude.{[], ◌∷◌, ◌≡◌, IsTrue, ℕ};
ghost use Rattle.urb_names.specs.ListPrefixes.{OneBegins};
ghost use Rattle.urb_names.specs.Names.{name};
ghost use Rattle.urb_names.specs.LabelsAndContents.{Content, Label};
ghost use Rattle.urb_names.specs.Pairs.{has_pair};
ghost use Rattle.urb_stable.specs.DeliveredLogs.{entries_of};
ghost use Rattle.urb_stable.specs.Records.{pend};
ghost use Rattle.urb_stable.specs.declared.record.Record.TheVariants.{PendCert};
ghost use Rattle.urb_world.specs.Acceptance.{HasStored};
ghost use Rattle.urb_world.specs.PromisedWorlds.{IsPromised};
ghost use Rattle.urb_world.specs.SafetyProperties.{Safe};
ghost use Rattle.urb_world.specs.ProcessStops.{GoesOnIn};
ghost use Rattle.urb_world.specs.World.{World, image_of, opened, stored};
ghost use Rattle.urb_world.specs.internal.Scripts.{message};
ghost use Rattle.urb_world.specs.internal.Examples.{certified, limits, pending};

/// What a promised world gives to readers: logs agree, and a name has one message.
pub fn what_is_promised()
    ensures agree { (w : World) (p q s : ℕ) → IsPromised w
        → OneBegins (entries_of s (stored w p)) (entries_of s (stored w q)) }
    ensures one_message { (w : World) (p q : ℕ) (x : Label) (m o : Content) → IsPromised w
        → IsTrue (has_pair (pend (stored w p)) x m) → IsTrue (has_pair (pend (stored w q)) x o)
        → m ≡ o }
    ensures safe { (w : World) → IsPromised w → Safe w }
{}

/// Logs are compared with their messages: the same name with another message is neither the same
/// log, nor a log that grew.
pub fn logs_have_messages()
    ensures agree { OneBegins (entries_of 1 (certified 1 1 ∷ []))
        (entries_of 1 (PendCert (name 1 1) (message 7 1 "a") ∷ [])) → ⊥ }
    ensures goes_on { GoesOnIn (opened (limits 1 10) (image_of ((certified 1 1 ∷ []) ∷ [])))
        (image_of ((PendCert (name 1 1) (message 7 1 "a") ∷ []) ∷ [])) → ⊥ }
{}

/// A node has stored a message as its own only under a name of its own, and with its payload.
pub fn what_a_node_has_stored()
    ensures its_own { HasStored (opened (limits 7 10) (image_of ((pending 1 1 ∷ []) ∷ []))) 1
        (name 1 1) (message 7 1 "") }
    ensures another_payload { HasStored (opened (limits 7 10)
        (image_of ((pending 1 1 ∷ []) ∷ []))) 1 (name 1 1) (message 7 1 "a") → ⊥ }
    ensures another_sender { HasStored (opened (limits 7 10)
        (image_of ([] ∷ (pending 1 1 ∷ []) ∷ []))) 2 (name 1 1) (message 7 1 "") → ⊥ }
{}
