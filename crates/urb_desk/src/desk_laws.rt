//! What follows from the answers of desks, of one session or of several.
//!
//! These functions are for proofs alone, since they do nothing.

ghost use Rattle.std.specs.Prelude.{◌≡◌, ◌-◌, Contains, List, ℕ};
ghost use Rattle.urb_names.specs.LabelsAndContents.{Content};
ghost use Rattle.urb_names.specs.ListPrefixes.{OneBegins};
ghost use Rattle.urb_names.specs.Names.{name};
ghost use Rattle.urb_group.specs.GroupViews.{GroupView};
ghost use Rattle.urb_world.specs.Step.{Event};
ghost use Rattle.urb_show.specs.Lists.{list_at};
ghost use Rattle.urb_show.specs.declared.entry.Entry.{Entry};
ghost use Rattle.urb_desk.specs.Desks.{DeskView, HasAccepted, Looks};

/// `ACCEPTED n` at node p means that entry p.n is this message, for every reader and for ever. One
/// desk said that a submit was accepted, and any desk of the same House looked at its node's list,
/// before it or after it. If the list has an entry p.n, the entry has the message. The desks may be
/// of different nodes and sessions. Of the events that they had seen, one list is a prefix of the
/// other, because both are moments of one House.
pub fn what_is_accepted_is_what_desks_read()
    ensures { (opened : GroupView) (seen history : List Event) (p : ℕ) (m : Content) (seq : ℕ)
        (before after : DeskView) (e : Entry)
        → HasAccepted opened seen history p m seq
        → Looks opened before after
        → OneBegins history after.past
        → Contains (list_at after.known.seen (before.node - 1)) e
        → e.name ≡ name p seq
        → e.message ≡ m }
{}
