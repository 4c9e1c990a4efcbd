//! The laws about what a user of the daemon sees. Each law is the contract of a function that does
//! nothing.
ghost use Rattle.std.specs.Prelude.{◌≡◌, ℕ, List, [], length, map};
ghost use Rattle.urb_names.specs.LabelsAndContents.{Limits};
ghost use Rattle.urb_stable.specs.DeliveredLogs.{entries};
ghost use Rattle.urb_stable.specs.Entries.{Entry};
ghost use Rattle.urb_group.specs.DeliveredMessages.{delivered_at, known};
ghost use Rattle.urb_group.specs.GroupViews.{GroupView, Shows};
ghost use Rattle.urb_world.specs.ProcessStops.{MayLeave};
ghost use Rattle.urb_world.specs.Step.{Event, IsReached};
ghost use Rattle.urb_world.specs.World.{World, opened, started, stored};
ghost use Rattle.urb_group.specs.declared.state.State.TheVariants as state;
ghost use Rattle.urb_show.specs.Service.{Act, Join, Service, Starts, Step, entries_at};
ghost use Rattle.urb_show.specs.ServicePromises.{AllKeep};
ghost use Rattle.urb_show.specs.ShownServices.{shown, ShowsRun};
ghost use Rattle.urb_show.specs.Statuses.{status_of};

/// Each history of the algorithm shows a behaviour of the service. From every reached world, a user
/// sees each event of a run as a step of the service, with the same answer. An event at no node is
/// refused and changes nothing.
pub fn every_run_is_one_of_the_service()
    ensures { (w : World) (events : List Event) → IsReached w → ShowsRun w events }
{}

/// At the first start, nothing is accepted, all logs are empty, and all nodes are ready.
pub fn a_new_group_shows_an_empty_service()
    ensures { (size : Limits) (p : ℕ) → (shown (started size)).node p ≡ record {
      list = [];
      log = [];
      state = state.Ready;
      asked = [];
    } }
{}

/// The whole process may stop at any moment. Whatever a stop leaves in the storages, the group that
/// opens from it shows a start of the service.
pub fn every_start_is_one_of_the_service()
    ensures { (w : World) (images : ℕ → List Entry) → IsReached w →
        ((p : ℕ) → MayLeave (w.node p) (images p)) →
        Starts (shown w) (shown (opened w.size images)) }
{}

/// In every reached world, each log is made of names that join it one after the other. Its entries
/// are those that its records give, and those of every group that shows the world.
pub fn every_log_is_one_of_the_service()
    ensures logs { (w : World) (p : ℕ) →
        IsReached w → Join (shown w) [] ((shown w).node p).log }
    ensures entries { (w : World) (p : ℕ) → IsReached w →
        entries (stored w p) ≡ entries_at (shown w) ((shown w).node p).log }
    ensures delivered { (group : GroupView) (w : World) (p : ℕ) → IsReached w → Shows group w →
        map known (delivered_at group p) ≡ entries_at (shown w) ((shown w).node p).log }
{}

/// A status tells the node's state, how many messages it has accepted, and how many names its log
/// has.
pub fn a_status_is_one_of_the_service()
    ensures { (w : World) (p : ℕ) → status_of w p ≡ record {
      state = ((shown w).node p).state;
      own = length ((shown w).node p).list;
      logged = length ((shown w).node p).log;
    } }
{}

/// The service takes nothing back. In each step and in each start, what a node has accepted and
/// what its log has stay, perhaps with more after them.
pub fn the_service_takes_nothing_back()
    ensures step { (old new : Service) (p : ℕ) (act : Act) →
        Step old p act new → AllKeep old new }
    ensures start { (old new : Service) → Starts old new → AllKeep old new }
{}
