//! The log of small lists of records.
ghost use Rattle.std.specs.Prelude.{◌≡◌, ◌≢◌, [], ◌∷◌, AllPairs, List, Some, length, ℕ};
ghost use Rattle.urb_names.specs.Names.{name, names};
ghost use Rattle.urb_names.specs.Release.{part_of};
ghost use Rattle.urb_stable.specs.DeliveredLogs.{log, entries};
ghost use Rattle.urb_stable.specs.Entries.{Entry};
ghost use Rattle.urb_stable.specs.declared.record.Record.TheVariants.{Pend, PendCert, Cert};
ghost use Rattle.urb_world.specs.internal.Scripts.{message};
ghost use Rattle.urb_world.specs.internal.Examples.{pending, certified};

/// A log has a sender's names from number 1 on, as far as all are certified. Each enters the log as
/// soon as all before it are certified.
pub fn logs()
    ensures pending_is_not_delivered { log (pending 1 1 ∷ []) ≡ [] }
    ensures later_number_waits { log (certified 1 2 ∷ []) ≡ [] }
    ensures rising_in_number { log (certified 1 2 ∷ certified 1 1 ∷ []) ≡ name 1 1 ∷ name 1 2 ∷ [] }
    ensures in_order_of_certificates { log (pending 1 1 ∷ certified 2 1 ∷ Cert (name 1 1) ∷ [])
        ≡ name 2 1 ∷ name 1 1 ∷ [] }
    ensures senders_apart { log (certified 1 2 ∷ certified 2 1 ∷ certified 1 1 ∷ certified 2 2 ∷ [])
        ≡ name 2 1 ∷ name 1 1 ∷ name 1 2 ∷ name 2 2 ∷ [] }
    ensures stops_at_a_gap { log (certified 1 1 ∷ certified 1 3 ∷ certified 1 4 ∷ [])
        ≡ name 1 1 ∷ [] }
    ensures goes_on_past_the_gap { log
        (certified 1 1 ∷ certified 1 3 ∷ certified 1 4 ∷ certified 1 2 ∷ [])
        ≡ name 1 1 ∷ name 1 2 ∷ name 1 3 ∷ name 1 4 ∷ [] }
    ensures each_with_its_message { entries
        (PendCert (name 1 2) (message 7 1 "b") ∷ Pend (name 2 1) (message 8 1 "c") ∷ PendCert
        (name 1 1) (message 9 1 "a") ∷ [])
        ≡ (name 1 1, Some (message 9 1 "a")) ∷ (name 1 2, Some (message 7 1 "b")) ∷ [] }
{}

/// The log of any records has each sender's names 1, 2, 3, .. in order, and no name twice. So two
/// fields say nothing that isn't true of every world: `numbers` of `IsInOrder`, and `no_twice` of
/// `Safe`.
pub fn what_every_log_is()
    ensures numbers { (records : List Entry) (s : ℕ) →
        part_of s (log records) ≡ names s (length (part_of s (log records))) }
    ensures no_twice { (records : List Entry) → AllPairs (λ x y. x ≢ y) (log records) }
{}
