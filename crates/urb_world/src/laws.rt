//! What holds in every world of a run; each law is the contract of a function that does nothing.
//!
//! The textbook is C. Cachin, R. Guerraoui and L. Rodrigues, Introduction to Reliable and Secure
//! Distributed Programming (second edition, 2011). Uniform FIFO order is that of V. Hadzilacos and
//! S. Toueg, A Modular Approach to Fault-Tolerant Broadcasts and Related Problems (1994).

ghost use Rattle.std.specs.Prelude.{◌≡◌, ℕ, IsTrue, List, None, [], true};
ghost use Rattle.urb_names.specs.CarriedPackets.{Carried};
ghost use Rattle.std.specs.List.{AllByRecursion};
ghost use Rattle.urb_names.specs.LabelsAndContents.{Label, Content};
ghost use Rattle.urb_names.specs.declared.refusal.Refusal.{Refusal};
ghost use Rattle.urb_stable.specs.Entries.{Entry};
ghost use Rattle.urb_stable.specs.DeliveredLogs.{DeliversExactly};
ghost use Rattle.urb_node.specs.Replies.{Reply, Done, Same, Stored, Refused};
ghost use Rattle.urb_node.specs.Steps.{says_heard};
ghost use Rattle.urb_node.specs.declared.answer.Answer.TheVariants.{Accepted};
ghost use Rattle.urb_world.specs.World.{World, stored};
ghost use Rattle.urb_world.specs.Step.{Event, Submit, Commit, step, Run, IsReached};
ghost use Rattle.urb_world.specs.SafetyProperties.{Safe, OneMessage};
ghost use Rattle.urb_world.specs.PromptAnswers.{answers_to};
ghost use Rattle.urb_world.specs.TruthfulPackets.{AreTruthful, AllTruthful, ToldTruth};
ghost use Rattle.urb_world.specs.RunMoments.{GoesOn, EntriesGrow, AgreeInTime};
ghost use Rattle.urb_world.specs.Acceptance.{HasStored, StoresOwn};
ghost use Rattle.urb_world.specs.ProcessStops.{SurvivesStop};
ghost use Rattle.urb_world.specs.StoresAhead.{SurvivesAhead};

/// Every run is safe, whatever was lost, repeated or reordered, and whatever crashed. Each node's
/// log holds, for each sender, the first messages that this sender's storage took, in order and
/// once. A majority's storages hold each of them. These are no creation, no duplication, and what
/// gives uniform agreement, of logged uniform reliable broadcast (section 3.7). It is also FIFO
/// delivery (section 3.9; Hadzilacos and Toueg 1994, uniform FIFO order).
pub fn every_run_is_safe()
    ensures { (w : World) → IsReached w → Safe w }
{}

/// Every packet that was ever sent is truthful, when it is sent and from then on. Its source has
/// stored its message. If the packet reports a certificate, its source has stored that too. So the
/// links and the broadcast create nothing (no creation, sections 2.4 and 3.7).
pub fn every_packet_is_truthful()
    ensures sent { (w : World) → IsReached w → AllTruthful w }
    ensures for_good { (old new : World) (events : List Event) (replies : List Reply) →
        IsReached old → Run old events replies new → AreTruthful new old.sent }
    ensures told { (old new : World) (events : List Event) (replies : List Reply) →
        IsReached old → Run old events replies new → ToldTruth new replies }
{}

/// Answers end: no two nodes answer each other forever. A packet is not answered at once if it says
/// that the certificate of its target was heard, nor if it is of version one. Whatever happens in
/// between, the answer to an answer is not answered either.
pub fn answers_end()
    ensures heard { (w : World) (p : ℕ) (packet : Carried) →
        says_heard packet.flags ≡ true → answers_to w p packet ≡ [] }
    ensures first_version { (w : World) (p : ℕ) (packet : Carried) →
        packet.flags ≡ None → answers_to w p packet ≡ [] }
    ensures ends { (first : Carried) (u v w : World) (p q r : ℕ)
        → AllByRecursion
        (λ second. AllByRecursion (λ third. answers_to w r third ≡ []) (answers_to v q second))
        (answers_to u p first) }
{}

/// No two nodes hold different messages under one name (no creation, section 3.7).
pub fn a_name_has_one_message()
    ensures { (w : World) → IsReached w → OneMessage w }
{}

/// Take one sender, and two nodes at one moment or at two. One of the nodes has delivered a list of
/// the sender's messages, and this list is a prefix of the other node's. This is uniform agreement
/// and FIFO order of the logs (sections 3.7 and 3.9; Hadzilacos and Toueg 1994, uniform FIFO
/// order).
pub fn logs_agree()
    ensures { (old new : World) (events : List Event) (replies : List Reply) →
        IsReached old → Run old events replies new → AgreeInTime old new }
{}

/// From any world, what is stored, broadcast and delivered only grows at its end, and what is
/// truthful stays truthful. From a reached world, each delivered name keeps its message (stable
/// storage, section 2.2; the variable `delivered` of section 3.7).
pub fn everything_grows()
    ensures stored { (old new : World) (events : List Event) (replies : List Reply) →
        Run old events replies new → GoesOn old new }
    ensures entries { (old new : World) (events : List Event) (replies : List Reply) →
        IsReached old → Run old events replies new → EntriesGrow old new }
{}

/// The whole process may stop at any moment. A stop leaves each node's list of records, with or
/// without the record that was held or is doubtful. Whatever it leaves opens a group whose logs
/// begin with the logs before the stop. A repeated submit of a message that its node had stored is
/// accepted under its name (recovery, sections 2.2 and 3.7).
pub fn every_stop_is_survived()
    ensures { (w : World) → IsReached w → SurvivesStop w }
{}

/// The same, if the stores of some nodes hold more records than the group has counted as stored: a
/// worker stores several records by one call, before the events that draft them. Each of these
/// records must be one that may follow those before it (recovery, sections 2.2 and 3.7).
pub fn every_stop_ahead_is_survived()
    ensures { (w : World) → IsReached w → SurvivesAhead w }
{}

/// The log of any records is exactly what their certificates release. A name is delivered exactly
/// when it and all earlier names of its sender are certified (broadcast with sequence number,
/// section 3.9).
pub fn a_log_is_the_release_of_its_certificates()
    ensures { (records : List Entry) → DeliversExactly records }
{}

/// A submit is accepted only if its sender's storage holds its message under the name in the reply.
/// A repeat is accepted at once. A new message is accepted by the reply that the record is stored
/// (a broadcast counts from then on, section 3.7).
pub fn an_accepted_message_is_stored()
    ensures again { (w : World) (p : ℕ) (m : Content) (x : Label) →
        IsReached w → (step w (Submit p m)).0 ≡ Same (Accepted x) → HasStored w p x m }
    ensures stored { (w : World) (p position : ℕ) (entry : Entry) (done : Done) →
        (step w (Commit p position entry)).0 ≡ Stored done → IsTrue done.accepted →
        StoresOwn (step w (Commit p position entry)).1 p entry done }
{}

/// A refused event changes nothing.
pub fn a_refusal_changes_nothing()
    ensures { (w : World) (event : Event) (refusal : Refusal) →
        (step w event).0 ≡ Refused refusal → (step w event).1 ≡ w }
{}
