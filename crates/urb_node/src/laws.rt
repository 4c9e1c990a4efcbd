//! Laws of one node's drafts and packets, each as the contract of a function that does nothing.

ghost use Rattle.std.specs.Prelude.{◌≡◌, ◌<◌, ◌≤◌, ◌∷◌, [], ℕ, Bool, suc, true, false, List};
ghost use Rattle.std.specs.Prelude.{Option, None, flat_map, is_some, length};
ghost use Rattle.std.specs.List.{AllByRecursion};
ghost use Rattle.urb_names.specs.LabelsAndContents.{Content, Label, Limits};
ghost use Rattle.urb_names.specs.Names.{has_name, name};
ghost use Rattle.urb_names.specs.Pairs.{has_pair, message_of, next_number, own};
ghost use Rattle.urb_names.specs.CarriedPackets.{AreFrom, Carried, due_of, to_others, to_unheard};
ghost use Rattle.urb_names.specs.CyclicOrder.{resent};
ghost use Rattle.urb_stable.specs.declared.record.Record.TheVariants.{Cert, Pend, PendCert};
ghost use Rattle.urb_node.specs.RecordAdmission.{IsNext, MayArrive};
ghost use Rattle.urb_node.specs.AnswerPackets.{answer_with};
ghost use Rattle.urb_node.specs.Part.{Node};
ghost use Rattle.urb_node.specs.Steps.{answers_of, says_heard};

/// A draft, after what its node holds, meets the rules about the node's own image. There are three
/// kinds of drafts. A draft is the next message of the node's own, or a message that may arrive and
/// isn't pending. Or it is a certificate of a name that is pending and not certified.
pub fn drafts_are_next()
    ensures submit { (size : Limits) (p : ℕ) (pairs : List (Label × Content))
        (certified : List Label) (m : Content)
        → p ≤ size.n
        → length (own p pairs) < size.cap
        → m.number ≡ next_number m.client (own p pairs)
        → message_of pairs (name p (suc (length (own p pairs)))) ≡ None
        → IsNext size p pairs certified (Pend (name p (suc (length (own p pairs)))) m)
        × IsNext size p pairs certified (PendCert (name p (suc (length (own p pairs)))) m) }
    ensures arrival { (size : Limits) (p : ℕ) (pairs : List (Label × Content))
        (certified : List Label) (x : Label) (m : Content)
        → MayArrive size p pairs x m
        → message_of pairs x ≡ None
        → IsNext size p pairs certified (Pend x m) × IsNext size p pairs certified (PendCert x m) }
    ensures certificate { (size : Limits) (p : ℕ) (pairs : List (Label × Content))
        (certified : List Label) (x : Label)
        → x.sender ≤ size.n
        → x.seq ≤ size.cap
        → is_some (message_of pairs x) ≡ true
        → has_name certified x ≡ false
        → IsNext size p pairs certified (Cert x) }
{}

/// The packets of a stored pair, of a tick and of an answer have the node as their source. They
/// carry pairs that are pending at the node. They claim a certificate only if the node has stored
/// one. This is the property "no creation" of links (sections 2.4 and 3.7 of the textbook).
pub fn packets_are_of_held_pairs()
    ensures pair { (n p : ℕ) (pairs : List (Label × Content)) (certified : List Label)
        (is_certified : Bool) (heard : Option ℕ) (pair : Label × Content)
        → has_pair pairs pair.0 pair.1 ≡ true
        → (is_certified ≡ true → has_name certified pair.0 ≡ true)
        → AreFrom p pairs certified (to_others n p is_certified heard pair) }
    ensures tick { (n p : ℕ) (cursor : Option Label) (pairs : List (Label × Content))
        (certified : List Label) (heard : List (Label × ℕ))
        → AreFrom p pairs certified
        (flat_map (to_unheard n p certified heard) (resent cursor (due_of n p heard pairs))) }
    ensures answer { (p q : ℕ) (pairs : List (Label × Content)) (certified : List Label) (x : Label)
        (m : Content) (heard : Bool)
        → has_pair pairs x m ≡ true
        → has_name certified x ≡ true
        → AreFrom p pairs certified (answer_with p q x m heard ∷ []) }
{}

/// A packet that says that its target's certificate was heard is not answered, and neither is a
/// packet of version one. The answer to an answer is not answered. So no two nodes keep answering
/// each other forever.
pub fn answers_end()
    ensures heard { (size : Limits) (packet : Carried) (node : Node)
        → says_heard packet.flags ≡ true
        → answers_of size packet node ≡ [] }
    ensures first_version { (size : Limits) (packet : Carried) (node : Node)
        → packet.flags ≡ None
        → answers_of size packet node ≡ [] }
    ensures ends { (size : Limits) (first : Carried) (here there last : Node)
        → AllByRecursion
        (λ second. AllByRecursion (λ third. answers_of size third last ≡ [])
        (answers_of size second there)) (answers_of size first here) }
{}
