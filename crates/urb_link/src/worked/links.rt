//! Worked examples of links and backlogs: which way a packet may take, and what a datagram counts.
//!
//! Each of the rows that end in ⊥ breaks one part of what a link promises.
ghost use Rattle.std.specs.Prelude.{[], ◌∷◌, ◌≡◌, ◌+◌};
ghost use Rattle.urb_link.specs.Backlogs.{room_of, room_of_all};
ghost use Rattle.urb_link.specs.Links.{IsByMailboxes, IsByPorts, IsOf, IsRefused};
ghost use Rattle.urb_link.specs.declared.backlog.TheConstants.{KEEPING};
ghost use Rattle.urb_link.specs.declared.handed.Handed.{Handed};
ghost use Rattle.urb_link.specs.declared.handed.Way.TheVariants as way;
ghost use Rattle.urb_link.specs.internal.Ticks.{IsTick};
ghost use Rattle.urb_names.specs.declared.refusal.NoMemory.{NoMemory};
ghost use Rattle.urb_turn.specs.declared.job.Job.TheVariants as job;

/// A datagram goes to the port of its node. Without a port it goes to nobody.
pub fn ways_over_ports()
    ensures to_its_port { IsByPorts (11 ∷ 12 ∷ []) 2 (way.ToPort 12) }
    ensures to_the_port_of_another { IsByPorts (11 ∷ 12 ∷ []) 2 (way.ToPort 11) → ⊥ }
    ensures to_nobody { IsByPorts (11 ∷ 12 ∷ []) 3 way.ToNobody }
    ensures to_nobody_beside_its_port { IsByPorts (11 ∷ 12 ∷ []) 2 way.ToNobody → ⊥ }
    ensures to_a_port_without_one { IsByPorts (11 ∷ 12 ∷ []) 3 (way.ToPort 11) → ⊥ }
    ensures into_a_mailbox { IsByPorts (11 ∷ 12 ∷ []) 2 way.ToMailbox → ⊥ }
    ensures into_a_mailbox_without_a_port { IsByPorts [] 1 way.ToMailbox → ⊥ }
    ensures refused { (why : NoMemory) → IsByPorts (11 ∷ 12 ∷ []) 2 (way.Refused why) → ⊥ }
    ensures refused_without_a_port { (why : NoMemory) → IsByPorts [] 1 (way.Refused why) → ⊥ }
{}

/// A packet goes into a mailbox, unless memory is refused or its node has none.
pub fn ways_into_mailboxes()
    ensures into_the_last_one { IsByMailboxes 7 7 way.ToMailbox }
    ensures refused { (why : NoMemory) → IsByMailboxes 7 7 (way.Refused why) }
    ensures to_nobody_behind_the_last { IsByMailboxes 7 8 way.ToNobody }
    ensures to_nobody_beside_a_mailbox { IsByMailboxes 7 7 way.ToNobody → ⊥ }
    ensures to_a_port { IsByMailboxes 7 7 (way.ToPort 11) → ⊥ }
    ensures to_a_port_behind_the_last { IsByMailboxes 7 8 (way.ToPort 11) → ⊥ }
    ensures nobody_is_no_refusal { IsRefused way.ToNobody → ⊥ }
{}

/// A link was given all of these bytes, and for this node.
pub fn what_a_link_was_given()
    ensures all { (it : Handed) → it.target ≡ 2 → it.bytes.now ≡ 7 ∷ [] → IsOf 2 (7 ∷ []) it }
    ensures for_another { (it : Handed) → it.target ≡ 1 → IsOf 2 (7 ∷ []) it → ⊥ }
    ensures other_bytes { (it : Handed) → it.bytes.now ≡ [] → IsOf 2 (7 ∷ []) it → ⊥ }
{}

/// A datagram counts its bytes and what is kept beside them.
pub fn rooms_of_datagrams()
    ensures of_an_empty_one { room_of [] ≡ KEEPING }
    ensures of_two_bytes { room_of (0 ∷ 0 ∷ []) ≡ 2 + KEEPING }
    ensures of_none { room_of_all [] ≡ 0 }
    ensures of_two { room_of_all ((0 ∷ []) ∷ [] ∷ []) ≡ 1 + KEEPING + KEEPING }
{}

/// The timer asks for ticks alone, and each worker for those of its node.
pub fn ticks_of_nodes()
    ensures its_own { IsTick 2 (job.Tick 2) }
    ensures of_another { IsTick 2 (job.Tick 1) → ⊥ }
    ensures a_crash { IsTick 2 (job.Crash 2) → ⊥ }
    ensures a_restart { IsTick 2 (job.Restart 2) → ⊥ }
    ensures a_status { IsTick 2 (job.Status 2) → ⊥ }
    ensures a_submit { IsTick 2 (job.Submit 2 7 1 []) → ⊥ }
    ensures an_arrival { (bytes : _) → IsTick 2 (job.Arrive 2 bytes) → ⊥ }
{}
