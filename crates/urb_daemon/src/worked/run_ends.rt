//! Worked examples of ends of runs: how a group that was opened ends, and what the program shows.
//!
//! Each of the rows that end in ⊥ breaks one rule alone.
ghost use Rattle.std.specs.Prelude.{[], ◌++◌, Err, None, Ok, Some, codes, false, true};
ghost use Rattle.urb_names.specs.declared.refusal.Refusal.{Refusal};
ghost use Rattle.urb_daemon.specs.Endings.{ShowsEnd};
ghost use Rattle.urb_daemon.specs.Runs.{EndsAs};
ghost use Rattle.urb_daemon.specs.declared.network_fault.NetworkFault.{NetworkFault};
ghost use Rattle.urb_daemon.specs.declared.serve_fault.ServeFault.{ServeFault};
ghost use Rattle.urb_daemon.specs.declared.serve_fault.ServeFault.TheVariants as fault;
ghost use Rattle.urb_daemon.specs.internal.DaemonExamples.{line};

/// A run with a count of events has reported its opening. One that couldn't report it says so.
/// Sockets, memory or a thread may be refused before the report, and after it.
pub fn ends_of_opened_groups()
    ensures without_events { EndsAs true (Ok 0) }
    ensures with_twelve_events { EndsAs true (Ok 12) }
    ensures unreported { EndsAs false (Err fault.Untold) }
    ensures without_sockets { (why : NetworkFault) → EndsAs false (Err (fault.Network why)) }
    ensures without_sockets_later { (why : NetworkFault) → EndsAs true (Err (fault.Network why)) }
    ensures without_memory { EndsAs false (Err fault.NoMemory) }
    ensures without_memory_later { EndsAs true (Err fault.NoMemory) }
{}

/// No run ends otherwise: a group that was opened was not refused.
pub fn no_ends_of_opened_groups()
    ensures a_count_unreported { EndsAs false (Ok 12) → ⊥ }
    ensures no_event_unreported { EndsAs false (Ok 0) → ⊥ }
    ensures unreported_though_reported { EndsAs true (Err fault.Untold) → ⊥ }
    ensures refused { (why : Refusal) → EndsAs false (Err (fault.Unopened why)) → ⊥ }
    ensures refused_though_reported { (why : Refusal) → EndsAs true (Err (fault.Unopened why)) → ⊥ }
{}

/// After a run without a fault the status is 0 if its line was written, behind all that was written
/// before. Else it is 1. After a run with a fault it is 1, and nothing was written.
pub fn what_ends_show()
    ensures a_line_of_no_event { ShowsEnd (Ok 0) (Some []) (Some (line "closed 0")) 0 }
    ensures a_line_of_twelve_events { ShowsEnd (Ok 12) (Some (line "open 4"))
        (Some (line "open 4" ++ line "closed 12")) 0 }
    ensures a_line_that_nobody_sees { ShowsEnd (Ok 12) None None 0 }
    ensures no_line { ShowsEnd (Ok 12) (Some []) (Some []) 1 }
    ensures a_part_of_a_line { ShowsEnd (Ok 12) (Some []) (Some (codes "closed 1")) 1 }
    ensures a_fault_of_none { (why : ServeFault) → ShowsEnd (Err why) (Some []) (Some []) 1 }
    ensures a_fault_of_four { (why : ServeFault)
        → ShowsEnd (Err why) (Some (line "open 4")) (Some (line "open 4")) 1 }
    ensures a_fault_that_nobody_sees { (why : ServeFault) → ShowsEnd (Err why) None None 1 }
{}

/// The status is no other number. It is not 0 if the line is missing, is another one, or stands
/// elsewhere, nor after a fault.
pub fn what_ends_do_not_show()
    ensures no_line { ShowsEnd (Ok 12) (Some []) (Some []) 0 → ⊥ }
    ensures a_line_without_an_end { ShowsEnd (Ok 12) (Some []) (Some (codes "closed 12")) 0 → ⊥ }
    ensures a_line_of_another_count { ShowsEnd (Ok 12) (Some []) (Some (line "closed 13")) 0 → ⊥ }
    ensures another_line { ShowsEnd (Ok 12) (Some []) (Some (line "open 12")) 0 → ⊥ }
    ensures a_line_twice { ShowsEnd (Ok 12) (Some [])
        (Some (line "closed 12" ++ line "closed 12")) 0 → ⊥ }
    ensures a_line_in_front { ShowsEnd (Ok 12) (Some (line "open 4"))
        (Some (line "closed 12" ++ line "open 4")) 0 → ⊥ }
    ensures a_line_in_place_of_another { ShowsEnd (Ok 12) (Some (line "open 4"))
        (Some (line "closed 12")) 0 → ⊥ }
    ensures bytes_that_nobody_sees { ShowsEnd (Ok 12) (Some []) None 0 → ⊥ }
    ensures another_status { ShowsEnd (Ok 12) (Some []) (Some (line "closed 12")) 2 → ⊥ }
    ensures another_status_unseen { ShowsEnd (Ok 12) None None 2 → ⊥ }
    ensures a_fault_and_status_0 { (why : ServeFault) → ShowsEnd (Err why) (Some []) (Some []) 0
        → ⊥ }
    ensures a_fault_and_another_status { (why : ServeFault)
        → ShowsEnd (Err why) (Some []) (Some []) 2 → ⊥ }
    ensures a_fault_and_a_line { (why : ServeFault)
        → ShowsEnd (Err why) (Some []) (Some (line "closed 12")) 1 → ⊥ }
    ensures a_fault_and_less { (why : ServeFault)
        → ShowsEnd (Err why) (Some (line "open 4")) (Some []) 1 → ⊥ }
    ensures a_fault_and_bytes_that_nobody_sees { (why : ServeFault)
        → ShowsEnd (Err why) (Some []) None 1 → ⊥ }
{}
