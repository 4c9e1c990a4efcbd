//! A group of three over disks that crash. It stops after each command of a delivery, or inside
//! one, and goes on.

ghost use Rattle.std.specs.Prelude.{◌≡◌, length};

use super::disks::Journal;
use super::group::{
    DELIVERY, Event, Led, REPEAT, Told, command, list_of, outcome_of, play_events, three,
};
use super::kept::{Bytes, journal_of, write_records};
use sqlite::Options;
use sqlite_disk::Crash;
use std::alloc::Global;
use std::test::Fail;
use urb_cluster_stop::{apply_and_stop, stop_and_open_all, stop_and_reopen};
use urb_group::{Cluster, Command};
use urb_names::Config;
use urb_stable::Stable;

type Trio<D> = Cluster<Journal<D>>;

/// The command of a delivery after which the group stops, from 0. Then which nodes have delivered
/// the message after the stop, and whether it is accepted as a repeat.
static STOPS: [(usize, [bool; 3], bool); 6] = [
    (0, [false, false, false], false),
    (1, [false, false, false], true),
    (2, [false, false, false], true),
    (3, [false, true, false], true),
    (4, [false, true, false], true),
    (5, [true, true, false], true),
];

// A new group over these stores.
fn open_trio<S: Stable<Alloc = Global> + Drop>(
    alloc: Global,
    one: Option<S>,
    two: Option<S>,
    three_store: Option<S>,
) -> Option<Cluster<S>> {
    let stores = list_of(alloc, one, two, three_store)?;
    if stores.len() != 3 {
        return None;
    }
    Cluster::open(alloc, three(), stores).ok()
}

// What the group reports about these events, and the group.
fn tell<S: Stable<Alloc = Global>>(
    alloc: Global,
    cluster: Cluster<S>,
    events: &[Event],
) -> (Option<Told>, Cluster<S>) {
    let mut cluster = cluster;
    let told = play_events(alloc, &mut cluster, events);
    (told, cluster)
}

// The same, and the group ends.
fn tell_last<S: Stable<Alloc = Global> + Drop>(
    alloc: Global,
    cluster: Cluster<S>,
    events: &[Event],
) -> Option<Told> {
    let mut cluster = cluster;
    let told = play_events(alloc, &mut cluster, events);
    drop(cluster);
    told
}

// The limits of a group.
fn config_of<S: Stable<Alloc = Global>>(cluster: &Cluster<S>) -> Config
    ensures { result ≡ cluster.now.group.size }
{
    cluster.group().config()
}

// What the reply to this command led to, and the group that is opened after a stop.
fn apply_and_stop_trio<D: Crash + Drop>(
    alloc: Global,
    cluster: Trio<D>,
    command: &Command,
) -> (Led, Option<Trio<D>>) {
    let config = config_of(&cluster);
    let (reply, again) = apply_and_stop(alloc, cluster, command, config, Options::new(3));
    let led = outcome_of(&reply);
    drop(reply);
    match again {
        Ok(cluster) => (led, Some(cluster)),
        Err(_) => (led, None),
    }
}

// The group that is opened after a stop between two commands.
fn stop_and_reopen_trio<D: Crash + Drop>(alloc: Global, cluster: Trio<D>) -> Option<Trio<D>> {
    let config = config_of(&cluster);
    match stop_and_reopen(alloc, cluster, config, Options::new(4)) {
        Ok(cluster) => Some(cluster),
        Err(_) => None,
    }
}

// The limits of a group, and its stores.
fn take_apart<S: Stable<Alloc = Global>>(cluster: Cluster<S>) -> (Config, Vec<S>)
    ensures { length result.1.items ≡ result.0.n }
{
    let config = cluster.group().config();
    (config, cluster.into_stores())
}

// The same for the journals alone.
fn reopen_journals<D: Crash + Drop>(alloc: Global, cluster: Trio<D>) -> Option<Trio<D>> {
    let (config, journals) = take_apart(cluster);
    match stop_and_open_all(alloc, config, journals, Options::new(5)) {
        Ok(cluster) => Some(cluster),
        Err(_) => None,
    }
}

// The first report, if the others are those of a group that delivers the message and has it.
fn judge_told(told: Told, delivered: Told, last: Told) -> Option<Told> {
    let are_kept = delivered.logs == [true, true, false] && last.logs == delivered.logs;
    if are_kept && delivered.is_accepted && last.is_same {
        Some(told)
    } else {
        None
    }
}

// What the group reports when the message is submitted again. After another stop, it delivers the
// message. After a last stop, it has what it delivered.
fn tell_after_stops<D: Crash + Drop>(alloc: Global, cluster: Trio<D>) -> Option<Told> {
    let (told, cluster) = tell(alloc, cluster, &REPEAT);
    let again = stop_and_reopen_trio(alloc, cluster)?;
    let (delivered, cluster) = tell(alloc, again, &DELIVERY);
    let last = tell_last(alloc, reopen_journals(alloc, cluster)?, &REPEAT);
    judge_told(told?, delivered?, last?)
}

/// What a command led to, behind which a group stops.
#[derive(Clone, Copy)]
enum Behind {
    /// There was no group.
    Unopened,
    /// The command led to this, and after the stop the group reports this.
    Told(Led, Told),
    /// Something else is found after the stop.
    Other,
}

// Plays these events and this command, and stops the group.
fn tell_behind<D: Crash + Drop>(
    alloc: Global,
    cluster: Trio<D>,
    events: &[Event],
    command: &Command,
) -> Behind {
    let (before, cluster) = tell(alloc, cluster, events);
    match apply_and_stop_trio(alloc, cluster, command) {
        (led, Some(again)) => match (before, tell_after_stops(alloc, again)) {
            (Some(_), Some(told)) => Behind::Told(led, told),
            _ => Behind::Other,
        },
        _ => Behind::Other,
    }
}

// The same for a new group over these journals.
fn stop_behind<D: Crash + Drop>(
    alloc: Global,
    one: Option<Journal<D>>,
    two: Option<Journal<D>>,
    three: Option<Journal<D>>,
    events: &[Event],
    command: &Command,
) -> Behind {
    match open_trio(alloc, one, two, three) {
        Some(cluster) => tell_behind(alloc, cluster, events, command),
        None => Behind::Unopened,
    }
}

// The same for journals in files with these bytes. The log of node 1 fails after the given number
// of calls.
fn stop_over(
    alloc: Global,
    bytes: &Bytes,
    calls: u64,
    events: &[Event],
    command: &Command,
) -> Behind {
    let one = journal_of(alloc, (&bytes.log, calls), (&bytes.db, u64::MAX));
    let two = journal_of(alloc, (&bytes.log, u64::MAX), (&bytes.db, u64::MAX));
    let three = journal_of(alloc, (&bytes.log, u64::MAX), (&bytes.db, u64::MAX));
    stop_behind(alloc, one, two, three, events, command)
}

// The report of a group that stopped after this command.
fn tell_after_command(alloc: Global, at: usize) -> Option<Told> {
    let bytes = write_records(alloc, &[])?;
    let command = command(alloc, *DELIVERY.get(at)?)?;
    match stop_over(alloc, &bytes, u64::MAX, DELIVERY.get(..at)?, &command) {
        Behind::Told(Led::Down, _) => None,
        Behind::Told(_, told) => Some(told),
        _ => None,
    }
}

#[test]
fn a_group_goes_on_from_behind_each_command(rt: HostRuntime) -> Result<(), Fail> {
    for (at, logs, is_same) in &STOPS {
        let wanted = Told {
            logs: *logs,
            is_accepted: *is_same,
            is_same: *is_same,
            is_down: false,
        };
        if tell_after_command(rt.alloc(), *at) != Some(wanted) {
            return Err(Fail::new(format_args!("behind command {at}, from 0")));
        }
    }
    Ok(())
}

// Counts the stops inside the first store of node 1. The first is at the first call of its log, the
// next at the second call, and so on until the store succeeds. After each stop, the group finds
// what it had stored, and nothing else.
fn count_stops(alloc: Global) -> Option<u64> {
    let bytes = write_records(alloc, &[])?;
    let command = command(alloc, Event::StoreOne)?;
    let mut met = 0;
    for calls in 0..200 {
        match stop_over(alloc, &bytes, calls, &REPEAT, &command) {
            Behind::Unopened => {}
            Behind::Told(Led::Stored, told) => {
                return if told.is_same { Some(met) } else { None };
            }
            Behind::Told(Led::Down, _) => met = u64::saturating_add(met, 1),
            _ => return None,
        }
    }
    None
}

#[test]
fn a_group_goes_on_from_inside_a_store(rt: HostRuntime) -> Result<(), Fail> {
    let met = count_stops(rt.alloc()).unwrap_or(0);
    if met < 2 {
        return Err(Fail::new(format_args!("{met} stops")));
    }
    Ok(())
}
