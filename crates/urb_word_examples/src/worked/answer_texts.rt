//! The texts of a script's answers.
ghost use Rattle.std.specs.Prelude.{[], ◌∷◌, ◌++◌, ◌≡◌, None, Some, codes, false, true};
ghost use Rattle.std.specs.Fmt.{decimal};
ghost use Rattle.urb_names.specs.Names.{name};
ghost use Rattle.urb_names.specs.declared.refusal.PacketFault.TheVariants as fault;
ghost use Rattle.urb_names.specs.declared.refusal.Refusal.TheVariants as refusal;
ghost use Rattle.urb_names.specs.declared.refusal.Rule.TheVariants as rule;
ghost use Rattle.urb_node.specs.Replies as reply;
ghost use Rattle.urb_node.specs.declared.answer.Answer.TheVariants as answer;
ghost use Rattle.urb_world.specs.internal.Examples.{a_packet, certified, limits};
ghost use Rattle.urb_world.specs.internal.Scripts.{message};
ghost use Rattle.urb_script.specs.Scripts.{bad_line};
ghost use Rattle.urb_script.specs.Steps.{bad_node};
ghost use Rattle.urb_script.specs.Texts.{answer_text, done_text, entry_text, fault_word, flags_text};
ghost use Rattle.urb_script.specs.Texts.{held_text, log_text, message_word, packet_text};
ghost use Rattle.urb_script.specs.Texts.{refusal_words, reply_text, rule_letter, told_text};
ghost use Rattle.urb_script.specs.ValueWords.{name_text};
ghost use Rattle.urb_script.specs.declared.answer_words.FixedAnswer.TheVariants as told;

/// The words of faults, and the letters of rules.
pub fn words_of_faults()
    ensures too_few { fault_word fault.Short ≡ codes "short" }
    ensures another_magic { fault_word fault.Magic ≡ codes "magic" }
    ensures another_version { fault_word fault.Version ≡ codes "version" }
    ensures another_length { fault_word fault.Length ≡ codes "length" }
    ensures out_of_range { fault_word fault.Range ≡ codes "range" }
    ensures the_first_rule { rule_letter rule.A ≡ codes "a" }
    ensures the_second_rule { rule_letter rule.B ≡ codes "b" }
    ensures the_third_rule { rule_letter rule.C ≡ codes "c" }
    ensures the_fourth_rule { rule_letter rule.D ≡ codes "d" }
{}

/// The words of refusals.
pub fn words_of_refusals()
    ensures no_memory { refusal_words refusal.NoMemory ≡ [] }
    ensures bad_node { refusal_words refusal.BadNode ≡ codes "badnode" }
    ensures down { refusal_words refusal.Down ≡ codes "down" }
    ensures busy { refusal_words refusal.Busy ≡ codes "busy" }
    ensures too_long { refusal_words refusal.TooLong ≡ codes "toolong" }
    ensures conflict { refusal_words refusal.Conflict ≡ codes "conflict" }
    ensures gap { refusal_words (refusal.Gap 5) ≡ codes "gap " ++ decimal 5 }
    ensures full { refusal_words refusal.Full ≡ codes "full" }
    ensures forged { refusal_words refusal.Forged ≡ codes "forged" }
    ensures stale { refusal_words refusal.Stale ≡ codes "stale" }
    ensures not_down { refusal_words refusal.NotDown ≡ codes "notdown" }
    ensures bad_image { refusal_words refusal.BadImage ≡ codes "badimage" }
    ensures inconsistent { refusal_words (refusal.Inconsistent rule.A 1 (name 2 3))
        ≡ codes "inconsistent a " ++ (decimal 1 ++ (32 ∷ name_text (name 2 3))) }
    ensures of_no_node { bad_node ≡ codes "refused badnode" }
{}

/// The lines of answers, without their LF.
pub fn lines_of_answers()
    ensures accepted { told_text (told.Accepted (name 1 2)) ≡ codes "accepted " ++ name_text (name 1 2) }
    ensures noted { told_text (told.Noted (name 1 2)) ≡ codes "noted " ++ name_text (name 1 2) }
    ensures again { told_text (told.Again (name 1 2)) ≡ codes "again " ++ name_text (name 1 2) }
    ensures answered { told_text (told.Answered (name 1 2)) ≡ codes "answered " ++ name_text (name 1 2) }
    ensures stored { told_text (told.Stored (name 1 2) 3 4)
        ≡ codes "accepted " ++ (name_text (name 1 2) ++ (codes " sent "
        ++ (decimal 3 ++ (codes " released " ++ decimal 4)))) }
    ensures taken { told_text (told.Taken (name 1 2) 3 4) ≡ codes "taken " ++ (name_text (name 1 2)
        ++ (codes " sent " ++ (decimal 3 ++ (codes " released " ++ decimal 4)))) }
    ensures went_down { told_text (told.Down 2) ≡ codes "down " ++ decimal 2 }
    ensures came_up { told_text (told.Up 2) ≡ codes "up " ++ decimal 2 }
{}

/// The lines of replies.
pub fn lines_of_replies()
    ensures accepted { reply_text (reply.Same (answer.Accepted (name 1 2)))
        ≡ codes "accepted " ++ name_text (name 1 2) }
    ensures noted { reply_text (reply.Same (answer.Noted (name 1 2))) ≡ codes "noted " ++ name_text (name 1 2) }
    ensures again { reply_text (reply.Same (answer.Again (name 1 2))) ≡ codes "again " ++ name_text (name 1 2) }
    ensures went_down { reply_text (reply.WentDown 2) ≡ codes "down " ++ decimal 2 }
    ensures came_up { reply_text (reply.Up 2) ≡ codes "up " ++ decimal 2 }
    ensures sent { reply_text (reply.Sent (a_packet 0 1 2 ∷ [])) ≡ codes "sent" ++ (packet_text (a_packet 0 1 2) ++ []) }
    ensures an_own_message { done_text (record
        { accepted = true; name = name 1 2; sent = a_packet 0 1 2 ∷ []; released = 0 })
        ≡ codes "accepted " ++ (name_text (name 1 2) ++ (codes " sent "
        ++ (decimal 1 ++ (codes " released " ++ decimal 0)))) }
    ensures another_message { done_text (record
        { accepted = false; name = name 1 2; sent = []; released = 1 })
        ≡ codes "taken " ++ (name_text (name 1 2) ++ (codes " sent "
        ++ (decimal 0 ++ (codes " released " ++ decimal 1)))) }
{}

/// The parts of answers: packets, flags, entries and nodes.
pub fn parts_of_answers()
    ensures a_packet { packet_text (a_packet 0 1 2) ≡ 32 ∷ (decimal 2 ++ (58 ∷ name_text (name 1 1))) }
    ensures an_answer { answer_text (a_packet 1 1 2) ≡ codes " to " ++ (decimal 2
        ++ (codes " flags " ++ decimal 1)) }
    ensures flags { flags_text (Some (record { certified = true; heard = true }))
        ≡ codes " flags " ++ decimal 3 }
    ensures no_flags { flags_text None ≡ [] }
    ensures a_message { message_word (Some (message 7 1 "ab")) ≡ codes "ab" }
    ensures an_entry { entry_text (name 1 2, Some (message 7 1 "ab")) ≡ 32 ∷ (decimal 1
        ++ (46 ∷ (decimal 2 ++ (61 ∷ codes "ab")))) }
    ensures a_log { log_text 3 (certified 1 1 ∷ []) ≡ codes "log " ++ (decimal 3 ++ (58
        ∷ (entry_text (name 1 1, Some (message 7 1 "")) ++ []))) }
    ensures holders { held_text (name 1 2) (1 ∷ 3 ∷ []) ≡ codes "held " ++ (name_text (name 1 2)
        ++ (58 ∷ 32 ∷ (decimal 1 ++ (32 ∷ (decimal 3 ++ []))))) }
    ensures a_bad_line { bad_line 3 ≡ codes "bad line " ++ (decimal 3 ++ 10 ∷ []) }
{}
