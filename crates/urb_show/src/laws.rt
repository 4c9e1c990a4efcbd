//! The laws about what readers see, which replies callers get, and what a house delivers. Each law
//! is the contract of a function that does nothing.
ghost use Rattle.std.specs.Prelude.{Contains, List, [], length, ℕ, ◌++◌, ◌∷◌, ◌≡◌};
ghost use Rattle.std.specs.declared.alloc.Global.{Global};
ghost use Rattle.urb_group.specs.GroupCalls.{Steps};
ghost use Rattle.urb_world.specs.Acceptance.{HasStored};
ghost use Rattle.urb_group.specs.GroupViews.{GroupView, IsSound, Shows};
ghost use Rattle.urb_world.specs.RecoveredWorlds.{IsNotStranded};
ghost use Rattle.urb_world.specs.RecoveryPlans.{after};
ghost use Rattle.urb_world.specs.Rounds.{AllUp, AnswersArrive, IsBusyRound, IsRound, IsUndisturbed};
ghost use Rattle.urb_world.specs.Rounds.{NoneDue, ReadyHaveDelivered, TicksAreSilent, acts_of};
ghost use Rattle.urb_world.specs.Step.{Event, IsReached};
ghost use Rattle.urb_world.specs.World.{World};
ghost use Rattle.urb_names.specs.LabelsAndContents.{Content, Label};
ghost use Rattle.urb_names.specs.ListPrefixes.{OneBegins};
ghost use Rattle.urb_node.specs.Replies.{Reply};
ghost use Rattle.urb_show.specs.DeliveredLists.{AreDeliveredBy};
ghost use Rattle.urb_show.specs.Readers.{AreOfOneHistory, GoesOn, ReaderView, Learns, Takes};
ghost use Rattle.urb_show.specs.Readers.{ToldView};
ghost use Rattle.urb_show.specs.Lists.{AgreeAcross, Begins, Lists, list_at};
ghost use Rattle.urb_show.specs.Pages.{IsPageOf, NeverContradict};
ghost use Rattle.urb_show.specs.Pasts.{IsLedTo, IsToldAt};
ghost use mathlib.Core.List.{IsPrefix};
ghost use Rattle.urb_show.specs.declared.entry.Entry.{Entry};
ghost use Rattle.urb_show.specs.declared.entry.Page.{Page};

/// What a reader saw is a prefix of everything that it sees later. What two of its reads took
/// belongs to one history.
pub fn one_reader_agrees()
    ensures begins { (opened : GroupView) (first last : ReaderView) →
        GoesOn opened first last → Begins first.seen last.seen }
    ensures agree { (opened : GroupView) (first before last : ReaderView) →
        GoesOn opened first before → Takes opened before last →
        AreOfOneHistory first.seen last.seen }
    ensures past { (opened : GroupView) (first last : ReaderView) →
        GoesOn opened first last → IsPrefix first.past last.past }
{}

/// `LogReader::agrees_with` borrowed two readers of one house at some moment. What each saw until
/// then agrees for each sender, at any two nodes. No page of one contradicts a page of the other.
pub fn readers_agree()
    ensures across { (opened : GroupView) (first last other latest : ReaderView) →
        GoesOn opened first last → GoesOn opened other latest →
        AreOfOneHistory last.seen latest.seen → AgreeAcross first.seen other.seen }
    ensures pages { (opened : GroupView) (first last other latest : ReaderView)
        (p q place spot most more : ℕ) (a b : Page Global) →
        GoesOn opened first last → GoesOn opened other latest →
        AreOfOneHistory last.seen latest.seen →
        IsPageOf (list_at first.seen p) place most a → IsPageOf (list_at other.seen q) spot more b →
        NeverContradict a b }
{}

/// Two readers that never meet can still agree. `LogReader::seen_token` and `House::settle` give a
/// token. After a reader has learnt it, what the reader takes and what the token stands for belong
/// to one history.
pub fn who_learns_agrees()
    ensures { (opened : GroupView) (token : ToldView) (start first before last : ReaderView) →
        Learns token start first → GoesOn opened first before → Takes opened before last →
        AreOfOneHistory token.lists last.seen }
{}

/// Readers agree, because each saw its lists at a place of the history. The lists that two readers
/// saw were delivered at two places of one history. So for any two nodes and each sender, its entries in one
/// list are a prefix of those in the other.
pub fn lists_agree_by_their_places()
    ensures { (opened : GroupView) (past later : List Event) (these those : Lists) →
        IsSound opened → OneBegins past later →
        AreDeliveredBy opened past these → AreDeliveredBy opened later those →
        AgreeAcross these those }
{}

/// At a place of the history a node has stored a message under a name, as it has for each submit
/// that it accepts. At any other place of the history, before or after it, every node's page has no
/// other message under this name.
pub fn what_is_accepted_is_what_pages_show()
    ensures { (opened : GroupView) (past later : List Event) (p q first most : ℕ) (x : Label)
        (m : Content) (lists : Lists) (page : Page Global) (e : Entry) →
        IsSound opened → OneBegins past later →
        ((w : World) → Shows opened w → HasStored (after w past) p x m) →
        AreDeliveredBy opened later lists → IsPageOf (list_at lists q) first most page →
        Contains page.entries.items e → e.name ≡ x → e.message ≡ m }
{}

/// An event of a house has a place in the one history of its events: behind all events before it.
/// Each moment after the event shows it there, with the reply that the algorithm gives there.
pub fn replies_stand()
    // a house's past led to the group before the event, and the moment comes after the event
    ensures told { (opened old new : GroupView) (past moment : List Event) (event : Event)
        (reply : Reply) →
        IsLedTo opened past old → Steps old event (λ told. told ≡ reply) new →
        IsPrefix (past ++ event ∷ []) moment →
        IsToldAt opened moment (length past) event reply }
    // a later moment shows the same
    ensures stay { (opened : GroupView) (moment later : List Event) (place : ℕ) (event : Event)
        (reply : Reply) →
        IsToldAt opened moment place event reply → IsPrefix moment later →
        IsToldAt opened later place event reply }
{}

/// A house delivers. If the last events of its past are two busy rounds, each node that is ready has
/// delivered all that the nodes had stored before these rounds. The rounds are those of
/// `urb_world::fairness`: all nodes were up, and the group wasn't stranded. `House::recall` says
/// that the past of a house has led to its group.
pub fn two_busy_rounds_of_a_house_deliver()
    ensures { (opened group : GroupView) (w : World) (before first second : List Event) →
        Shows opened w → IsReached w → IsLedTo opened (before ++ (first ++ second)) group →
        IsNotStranded (after w before) → AllUp (after w before) →
        IsBusyRound (after w before) first → IsBusyRound (after (after w before) first) second →
        (end : World) × Shows group end × ReadyHaveDelivered (after w before) end }
{
    urb_world::fairness::two_busy_rounds_deliver();
}

/// A house falls silent. If its past had three rounds, and the third one's answers arrived too, no
/// tick sends anything. This ends when a message is drafted, a node crashes or a store fails.
pub fn three_rounds_of_a_house_end_its_ticks()
    ensures { (opened group : GroupView) (w : World) (before first second third later : List Event)
        → Shows opened w → IsReached w
        → IsLedTo opened (before ++ (first ++ (second ++ (third ++ later)))) group
        → IsNotStranded (after w before) → AllUp (after w before)
        → IsRound (after w before) first → IsRound (after (after w before) first) second
        → IsRound (after (after (after w before) first) second) third
        → AnswersArrive (acts_of (after (after (after w before) first) second) third)
        → IsUndisturbed (acts_of (after (after (after (after w before) first) second) third) later)
        → (end : World) × Shows group end × NoneDue end
        × TicksAreSilent (acts_of (after (after (after (after w before) first) second) third) later) }
{
    urb_world::fairness::ticks_end();
}
