//! Worked examples of acts: how a change is reported, and what becomes of packets.
//!
//! Each of the rows that end in ⊥ breaks one rule alone.
ghost use Rattle.std.specs.Prelude.{[], ◌∷◌, ◌≡◌, None, Some, map};
ghost use Rattle.urb_names.specs.declared.refusal.Refusal.{Refusal};
ghost use Rattle.urb_turn.specs.declared.change.Change.TheVariants as change;
ghost use Rattle.urb_worker.specs.Acts.{Ended, Lost, MaySend, RanShort, Reported, Sends, Sent};
ghost use Rattle.urb_worker.specs.Acts.{reports_of};
ghost use Rattle.urb_worker.specs.declared.ticket_batch.BatchEnd.TheVariants as end;
ghost use Rattle.urb_worker.specs.internal.ActExamples.{bytes_for, given, packet_for};

/// Each change is reported once, as it is. Without a change nothing is reported.
pub fn reports_of_changes()
    ensures of_none { reports_of None ≡ [] }
    ensures of_a_crash_of_one { reports_of (Some (change.Crashed 1))
        ≡ Reported (change.Crashed 1) ∷ [] }
    ensures of_a_return_of_three { reports_of (Some (change.CameBack 3))
        ≡ Reported (change.CameBack 3) ∷ [] }
    ensures of_a_crash_of_four { reports_of (Some (change.Crashed 4))
        ≡ Reported (change.Crashed 4) ∷ [] }
    ensures of_a_failure_of_six { (why : Refusal) → reports_of (Some (change.Failed 6 why))
        ≡ Reported (change.Failed 6 why) ∷ [] }
    ensures of_a_return_of_seven { reports_of (Some (change.CameBack 7))
        ≡ Reported (change.CameBack 7) ∷ [] }
{}

/// A packet more is given to the link, for its target and in its only encoding. Or it is lost.
pub fn packets_that_go_out()
    ensures given_for_one { MaySend [] (packet_for 1) (given 1 ∷ []) }
    ensures given_for_three { MaySend [] (packet_for 3) (given 3 ∷ []) }
    ensures given_for_four { MaySend [] (packet_for 4) (given 4 ∷ []) }
    ensures given_for_six { MaySend [] (packet_for 6) (given 6 ∷ []) }
    ensures given_for_seven { MaySend [] (packet_for 7) (given 7 ∷ []) }
    ensures given_behind_another { MaySend (Lost 1 ∷ []) (packet_for 4)
        (Lost 1 ∷ given 4 ∷ []) }
    ensures lost_for_one { MaySend [] (packet_for 1) (Lost 1 ∷ []) }
    ensures lost_for_three { MaySend [] (packet_for 3) (Lost 3 ∷ []) }
    ensures lost_for_four { MaySend [] (packet_for 4) (Lost 4 ∷ []) }
    ensures lost_for_six { MaySend [] (packet_for 6) (Lost 6 ∷ []) }
    ensures lost_for_seven { MaySend [] (packet_for 7) (Lost 7 ∷ []) }
    ensures lost_behind_another { MaySend (given 1 ∷ []) (packet_for 4)
        (given 1 ∷ Lost 4 ∷ []) }
{}

/// No packet goes to another node, has other bytes, goes out twice, or is neither given nor lost.
/// What went out before it stays in front.
pub fn packets_that_do_not_go_out()
    ensures neither { MaySend [] (packet_for 4) [] → ⊥ }
    ensures given_for_another_than_one { MaySend [] (packet_for 1) (Sent 3 (bytes_for 1) ∷ []) → ⊥ }
    ensures given_for_another_than_four { MaySend [] (packet_for 4) (Sent 3 (bytes_for 4) ∷ [])
        → ⊥ }
    ensures given_for_another_than_seven { MaySend [] (packet_for 7) (Sent 6 (bytes_for 7) ∷ [])
        → ⊥ }
    ensures given_with_other_bytes { MaySend [] (packet_for 4) (Sent 4 (bytes_for 3) ∷ []) → ⊥ }
    ensures given_without_bytes { MaySend [] (packet_for 4) (Sent 4 [] ∷ []) → ⊥ }
    ensures given_twice { MaySend [] (packet_for 4)
        (given 4 ∷ given 4 ∷ []) → ⊥ }
    ensures given_and_lost { MaySend [] (packet_for 4) (given 4 ∷ Lost 4 ∷ []) → ⊥ }
    ensures given_in_front { MaySend (Lost 1 ∷ []) (packet_for 4)
        (given 4 ∷ Lost 1 ∷ []) → ⊥ }
    ensures given_in_place_of_another { MaySend (Lost 1 ∷ []) (packet_for 4)
        (given 4 ∷ []) → ⊥ }
    ensures lost_for_another_than_one { MaySend [] (packet_for 1) (Lost 3 ∷ []) → ⊥ }
    ensures lost_for_another_than_four { MaySend [] (packet_for 4) (Lost 3 ∷ []) → ⊥ }
    ensures lost_for_another_than_seven { MaySend [] (packet_for 7) (Lost 6 ∷ []) → ⊥ }
    ensures lost_twice { MaySend [] (packet_for 4) (Lost 4 ∷ Lost 4 ∷ []) → ⊥ }
    ensures lost_in_front { MaySend (Lost 1 ∷ []) (packet_for 4) (Lost 4 ∷ Lost 1 ∷ []) → ⊥ }
    ensures lost_in_place_of_another { MaySend (Lost 1 ∷ []) (packet_for 4) (Lost 4 ∷ []) → ⊥ }
    ensures a_report { MaySend [] (packet_for 4) (Reported (change.Crashed 4) ∷ []) → ⊥ }
    ensures an_end_of_a_batch { MaySend [] (packet_for 4) (Ended end.Full ∷ []) → ⊥ }
    ensures a_lack_of_memory { MaySend [] (packet_for 4) (RanShort ∷ []) → ⊥ }
{}

/// Packets go out one after the other, each once, and nothing else does.
pub fn packets_in_their_order()
    ensures none { Sends (Lost 1 ∷ []) [] (Lost 1 ∷ []) }
    ensures two { Sends [] (map packet_for (1 ∷ 3 ∷ [])) (given 1 ∷ Lost 3 ∷ []) }
    ensures three { Sends [] (map packet_for (1 ∷ 3 ∷ 4 ∷ [])) (map given (1 ∷ 3 ∷ 4 ∷ [])) }
    ensures six { Sends [] (map packet_for (1 ∷ 3 ∷ 4 ∷ 5 ∷ 6 ∷ 7 ∷ []))
        (map given (1 ∷ 3 ∷ 4 ∷ 5 ∷ 6 ∷ 7 ∷ [])) }
    ensures something_for_none { Sends [] [] (Lost 1 ∷ []) → ⊥ }
    ensures only_the_first { Sends [] (map packet_for (1 ∷ 3 ∷ [])) (given 1 ∷ []) → ⊥ }
    ensures only_the_second { Sends [] (map packet_for (1 ∷ 3 ∷ [])) (given 3 ∷ []) → ⊥ }
    ensures the_second_first { Sends [] (map packet_for (1 ∷ 3 ∷ [])) (given 3 ∷ given 1 ∷ []) → ⊥ }
    ensures another_first { Sends [] (map packet_for (1 ∷ 3 ∷ [])) (given 4 ∷ given 3 ∷ []) → ⊥ }
    ensures one_more { Sends [] (map packet_for (1 ∷ [])) (given 1 ∷ given 3 ∷ []) → ⊥ }
    ensures all_but_the_fourth { Sends [] (map packet_for (1 ∷ 3 ∷ 4 ∷ 5 ∷ []))
        (map given (1 ∷ 3 ∷ 4 ∷ [])) → ⊥ }
    ensures all_but_the_sixth { Sends [] (map packet_for (1 ∷ 3 ∷ 4 ∷ 5 ∷ 6 ∷ 7 ∷ []))
        (map given (1 ∷ 3 ∷ 4 ∷ 5 ∷ 6 ∷ [])) → ⊥ }
{}
