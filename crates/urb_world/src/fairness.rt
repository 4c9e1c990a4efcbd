//! Laws of delivery: if packets get through, a group delivers all that its storages took.
//!
//! The order of events doesn't matter. Each law is the contract of a function that does nothing.
//! The laws don't promise that packets arrive, nor that nodes tick. They say what follows once both
//! have happened (`specs/Rounds.antt`).

ghost use Rattle.std.specs.Prelude.{◌≡◌, Bool, List, Option, true, ℕ, ◌⊎◌, ◌≤◌, ◌<◌, ◌*◌, ◌+◌};
ghost use Rattle.std.specs.Prelude.{length};
ghost use Rattle.std.specs.List.{AllByRecursion};
ghost use Rattle.urb_names.specs.declared.limits.TheConstants.{NAMES_PER_TICK};
ghost use Rattle.urb_names.specs.CyclicOrder.{are_rising, resent};
ghost use Rattle.urb_names.specs.LabelsAndContents.{Content, Label};
ghost use Rattle.urb_names.specs.Nodes.{is_node, majority_passes};
ghost use Rattle.urb_names.specs.Pairs.{has_pair};
ghost use Rattle.urb_world.specs.RecoveredWorlds.{AllDelivered, IsNotStranded};
ghost use Rattle.urb_world.specs.RecoveryPlans.{after};
ghost use Rattle.urb_world.specs.Resends.{IsDueAmong, cursor_next, resent_over, turn_of};
ghost use Rattle.urb_world.specs.Rounds.{Act, AllUp, AnswersArrive, AreUp, HasDeliveredHeld};
ghost use Rattle.urb_world.specs.Rounds.{HaveDeliveredHeld, IsBusyRound, IsBusyRoundAmong, IsRound};
ghost use Rattle.urb_world.specs.Rounds.{IsRoundAmong, IsUndisturbed, NoneDue, ReadyHaveDelivered};
ghost use Rattle.urb_world.specs.Rounds.{TickAtLeast, TicksAreSilent, acts_of, taken, ticks_of};
ghost use Rattle.urb_world.specs.Step.{Event, IsReached};
ghost use Rattle.urb_world.specs.World.{World, stored};
ghost use Rattle.urb_node.specs.Part.{Ready};
ghost use Rattle.urb_stable.specs.Records.{pend};

/// Two rounds deliver everything. The order of their events doesn't matter. More packets may arrive
/// in between, and the group may refuse events. The rounds start from any world of a run in which
/// every node is ready or holds a record. The group must not be stranded. After the second round,
/// every node has delivered everything that each sender's storage took. Nodes that were down must
/// have come back before the first round.
pub fn two_fair_rounds_deliver()
    ensures { (w : World) (first second : List Event)
        → IsReached w
        → IsNotStranded w
        → AllUp w
        → IsRound w first
        → IsRound (after w first) second
        → AllDelivered (after (after w first) second) }
{}

/// Two busy rounds deliver what was stored before them, whatever clients submit meanwhile. After
/// the second round, each node that is ready has delivered all that each sender's storage had taken
/// before the first. (A node is ready when it holds no record that isn't stored, as it does after
/// each receipt.)
pub fn two_busy_rounds_deliver()
    ensures { (w : World) (first second : List Event)
        → IsReached w
        → IsNotStranded w
        → AllUp w
        → IsBusyRound w first
        → IsBusyRound (after w first) second
        → ReadyHaveDelivered w (after (after w first) second) }
{}

/// Every round is a busy round. So busy rounds exist from every world of a run (`rounds_exist`).
pub fn every_round_is_a_busy_round()
    ensures { (among : ℕ → Bool) (acts : List Act) (end : World)
        → IsRoundAmong among acts end
        → IsBusyRoundAmong among acts end }
{}

/// A majority delivers what it held before two busy rounds, while other nodes are down and clients
/// submit to those that are up. Each of these nodes has done so once it is ready.
pub fn a_busy_majority_delivers_what_it_held()
    ensures { (among : ℕ → Bool) (w : World) (first second : List Event)
        → IsReached w
        → IsNotStranded w
        → majority_passes w.size.n among ≡ true
        → AreUp among w
        → IsBusyRoundAmong among (acts_of w first) (after w first)
        → IsBusyRoundAmong among (acts_of (after w first) second) (after (after w first) second)
        → (q : ℕ)
        → among q ≡ true
        → ((after (after w first) second).node q).state ≡ Ready
        → HasDeliveredHeld among w (after (after w first) second) q }
{}

/// While some nodes are down, a majority of nodes that are up delivers what it holds. This takes
/// two rounds among these nodes. Then, for each sender, each of them has delivered at least the
/// longest prefix of messages that were each stored by one of them. No other node can know what
/// only nodes that are down have stored.
pub fn a_majority_delivers_what_it_holds()
    ensures { (among : ℕ → Bool) (w : World) (first second : List Event)
        → IsReached w
        → IsNotStranded w
        → majority_passes w.size.n among ≡ true
        → AreUp among w
        → IsRoundAmong among (acts_of w first) (after w first)
        → IsRoundAmong among (acts_of (after w first) second) (after (after w first) second)
        → HaveDeliveredHeld among w (after (after w first) second) }
{}

/// Rounds exist. From every world of a run, whatever was lost and whichever nodes are down, some
/// list of events is a round, and its answers arrive too. So the conditions of the laws of rounds
/// can be met, that of the third round of `ticks_end` included.
pub fn rounds_exist()
    ensures { (w : World)
        → IsReached w
        → (events : List Event) × IsRound w events × AnswersArrive (acts_of w events) }
{}

/// Says how many ticks are enough. Let each node tick at least `count` times. If `NAMES_PER_TICK`
/// times `count` is at least the number of messages that all storages took, each node ticks often
/// enough for a round.
pub fn so_many_ticks_are_enough()
    ensures { (count : ℕ) (w : World) (acts : List Act)
        → IsReached w
        → taken w ≤ NAMES_PER_TICK * count
        → TickAtLeast count w acts
        → (p : ℕ)
        → is_node w.size.n p ≡ true
        → length (pend (stored w p)) ≤ NAMES_PER_TICK * ticks_of p acts }
{}

/// Ticks end. After two rounds, and a third one whose answers arrive too, no name is due at any
/// node. This stays so, and no tick sends anything, as long as no new message is drafted, no node
/// crashes and no store fails.
pub fn ticks_end()
    ensures { (w : World) (first second third later : List Event)
        → IsReached w
        → IsNotStranded w
        → AllUp w
        → IsRound w first
        → IsRound (after w first) second
        → IsRound (after (after w first) second) third
        → AnswersArrive (acts_of (after (after w first) second) third)
        → IsUndisturbed (acts_of (after (after (after w first) second) third) later)
        → NoneDue (after (after (after (after w first) second) third) later)
        × TicksAreSilent (acts_of (after (after (after w first) second) third) later) }
{}

/// If a tick leaves out a due pair, the cursor passes at least `NAMES_PER_TICK` other pairs that
/// came before this one in the cyclic order.
pub fn a_tick_passes_sixteen()
    ensures { (all : List (Label × Content)) (cursor : Option Label) (x : Label) (m : Content)
        (due : List (Label × Content))
        → are_rising all ≡ true
        → IsDueAmong all x m due
        → (has_pair (resent cursor due) x m ≡ true)
        ⊎ (turn_of all (cursor_next cursor due) x + NAMES_PER_TICK ≤ turn_of all cursor x) }
{}

/// A pair that stays due gets its turn, whatever other pairs come and go between ticks. Count
/// `NAMES_PER_TICK` names for each tick. The pair is resent once this count exceeds the number of
/// pairs that came before it at first. It is also resent once this count reaches the number of all
/// pairs that were due at any of these ticks.
pub fn what_stays_due_is_resent()
    ensures turn { (all : List (Label × Content)) (cursor : Option Label) (x : Label) (m : Content)
        (dues : List (List (Label × Content)))
        → are_rising all ≡ true
        → has_pair all x m ≡ true
        → AllByRecursion (IsDueAmong all x m) dues
        → turn_of all cursor x < NAMES_PER_TICK * length dues
        → has_pair (resent_over cursor dues) x m ≡ true }
    ensures below { (all : List (Label × Content)) (cursor : Option Label) (x : Label) (m : Content)
        → are_rising all ≡ true
        → has_pair all x m ≡ true
        → turn_of all cursor x < length all }
    ensures all { (all : List (Label × Content)) (cursor : Option Label) (x : Label) (m : Content)
        (dues : List (List (Label × Content)))
        → are_rising all ≡ true
        → has_pair all x m ≡ true
        → AllByRecursion (IsDueAmong all x m) dues
        → length all ≤ NAMES_PER_TICK * length dues
        → has_pair (resent_over cursor dues) x m ≡ true }
{}
