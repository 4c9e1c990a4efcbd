//! Turns on a House, without threads.

ghost use Rattle.std.specs.Prelude.{◌≡◌};
ghost use Rattle.urb_show.specs.Houses.{IsNamed};

use super::shorts::{News, Said, Short, short_of};
use super::{open_group, open_hub, submit};
use std::alloc::Global;
use std::marker::Brand;
use std::sync::Wait;
use std::sync::ledger::Blank;
use std::test::Fail;
use urb_group::{Failure, MemStable};
use urb_names::NodeId;
use urb_show::{House, HouseName, Opened};
use urb_turn::{HubName, Job, OpenGate, Turn};

// The outcome of a job on a House, with its store.
fn run_turn<K: HouseName, R: Wait>(
    rt: &R,
    alloc: Global,
    house: &mut House<K>,
    store: &mut MemStable,
    job: Job,
) -> Short {
    let turn = Turn::begin(alloc, house, job).store(alloc, store);
    short_of(turn.finish(rt, alloc, house))
}

// A submit whose node is crashed between its store and its end. Returns whether it is stale.
fn is_stale<K: HouseName, R: Wait>(
    rt: &R,
    alloc: Global,
    house: &mut House<K>,
    store: &mut MemStable,
    node: NodeId,
) -> Option<bool> {
    let job = submit(alloc, node, 1)?;
    let turn = Turn::begin(alloc, house, job).store(alloc, store);
    let crash = run_turn(rt, alloc, house, store, Job::Crash(node));
    let before = (house.status(node), house.events());
    let stale = short_of(turn.finish(rt, alloc, house));
    let after = (house.status(node), house.events());
    Some(
        crash.said == Said::Down
            && stale.said == Said::Stale
            && stale.events == 1
            && before == after,
    )
}

// A submit whose node is crashed between its store and its end. After a restart it is done again.
fn crashed_between<K: HouseName, R: Wait>(
    rt: &R,
    alloc: Global,
    house: &mut House<K>,
    store: &mut MemStable,
) -> Option<bool> {
    let node = NodeId::new(1)?;
    let is_stale = is_stale(rt, alloc, house, store, node)?;
    let restart = run_turn(rt, alloc, house, store, Job::Restart(node));
    let again = run_turn(rt, alloc, house, store, submit(alloc, node, 1)?);
    Some(is_stale && restart.said == Said::Up && restart.has_told && again.said == Said::Same)
}

// Jobs at a node that is ready.
fn ready_replies<K: HouseName, R: Wait>(
    rt: &R,
    alloc: Global,
    house: &mut House<K>,
    store: &mut MemStable,
    node: NodeId,
) -> Option<bool> {
    let status = run_turn(rt, alloc, house, store, Job::Status(node));
    let accepted = run_turn(rt, alloc, house, store, submit(alloc, node, 1)?);
    let twice = run_turn(rt, alloc, house, store, Job::Restart(node));
    Some(
        status.has_status
            && accepted.said == Said::Accepted(1)
            && accepted.has_told
            && accepted.news == News::Told
            && status.news == News::Nothing
            && !status.has_told
            && twice.said == Said::NotDown,
    )
}

// Jobs at a node whose store fails, and at a node that doesn't exist.
fn down_replies<K: HouseName, R: Wait>(
    rt: &R,
    alloc: Global,
    house: &mut House<K>,
    store: &mut MemStable,
    node: NodeId,
) -> Option<bool> {
    let nobody = NodeId::new(2)?;
    let failed = run_turn(rt, alloc, house, store, submit(alloc, node, 2)?);
    let status = run_turn(rt, alloc, house, store, Job::Status(node));
    let unknown = run_turn(rt, alloc, house, store, Job::Status(nobody));
    let restart = run_turn(rt, alloc, house, store, Job::Restart(node));
    Some(
        failed.said == Said::Device
            && failed.events == 2
            && status.said == Said::Down
            && status.events == 0
            && unknown.said == Said::BadNode
            && !unknown.has_status
            && restart.said == Said::Up,
    )
}

// Jobs one after the other, whose replies aren't those of a cluster's commands.
fn other_replies<K: HouseName, R: Wait>(
    rt: &R,
    alloc: Global,
    house: &mut House<K>,
    store: &mut MemStable,
) -> Option<bool> {
    let node = NodeId::new(1)?;
    let ready = ready_replies(rt, alloc, house, store, node)?;
    store.arm(Failure::Old);
    let down = down_replies(rt, alloc, house, store, node)?;
    Some(ready && down)
}

// Plays both on a new House, and returns the number of the House's events too.
fn run_crashed_turn<K: HouseName, R: Wait>(
    rt: &R,
    alloc: Global,
    opened: Opened,
) -> Option<(bool, u64)>
    requires names { IsNamed opened K.book K.history K.base K.origin }
{
    let (mut house, readers) = match opened.parts::<K, R>(rt, alloc) {
        Ok(parts) => parts,
        Err((opened, _)) => {
            drop(opened.close());
            return None;
        }
    };
    drop(readers);
    let crashed = crashed_between(rt, alloc, &mut house, &mut MemStable::new(alloc));
    let events = house.events();
    drop(house.close(rt));
    Some((crashed?, events))
}

fn run_other_turns<K: HouseName, R: Wait>(
    rt: &R,
    alloc: Global,
    opened: Opened,
) -> Option<(bool, u64)>
    requires names { IsNamed opened K.book K.history K.base K.origin }
{
    let (mut house, readers) = match opened.parts::<K, R>(rt, alloc) {
        Ok(parts) => parts,
        Err((opened, _)) => {
            drop(opened.close());
            return None;
        }
    };
    drop(readers);
    let others = other_replies(rt, alloc, &mut house, &mut MemStable::new(alloc));
    let events = house.events();
    drop(house.close(rt));
    Some((others?, events))
}

#[test]
fn a_turn_whose_node_was_crashed_is_stale(rt: HostRuntime) -> Result<(), Fail> {
    let opened = open_group(rt.alloc(), 1).ok_or("memory")?;
    let played = run_crashed_turn::<Brand, _>(&rt, rt.alloc(), opened);
    assert_eq!(rt; played, Some((true, 4)));
    Ok(())
}

#[test]
fn a_turn_has_replies_of_its_own(rt: HostRuntime) -> Result<(), Fail> {
    let opened = open_group(rt.alloc(), 1).ok_or("memory")?;
    let played = run_other_turns::<Brand, _>(&rt, rt.alloc(), opened);
    assert_eq!(rt; played, Some((true, 5)));
    Ok(())
}

// Node 1's worker gets a job of node 2, and a crash of node 2. Returns whether the first job ran,
// whether it was refused, whether the second ran, and the events.
fn run_misrouted<K: HouseName, L: HubName, R: Wait>(
    rt: &R,
    alloc: Global,
    opened: Opened,
    blank: Blank,
) -> Option<(bool, bool, bool, u64)>
    requires names { IsNamed opened K.book K.history K.base K.origin }
    requires name { blank.name ≡ L.name }
    requires parts { (blank.parts ≡ L.parts) × (L.parts ≡ 2) × (opened.group.size.n ≡ 2) }
    requires start { L.start ≡ 0 }
{
    let one = NodeId::new(1).unwrap();
    let two = NodeId::new(2).unwrap();
    let mut store = MemStable::new(alloc);
    let (hub, mut tallies, readers) = open_hub::<K, L, R>(rt, alloc, opened, blank)?;
    drop(readers);
    let tally = tallies.pop().unwrap();
    let (tick, tally) = hub.work(rt, alloc, one, Job::Tick(two), &mut store, &OpenGate, tally);
    let tick = short_of(tick);
    let (crash, tally) = hub.work(
        rt,
        alloc,
        one,
        Job::Crash(two),
        &mut store,
        &OpenGate,
        tally,
    );
    let crash = short_of(crash);
    tallies.push_reserved(tally);
    let (house, _) = hub.close(tallies);
    let events = house.events();
    drop(house.close(rt));
    Some((tick.ran, tick.said == Said::BadNode, crash.ran, events))
}

#[test]
fn a_job_of_another_node_does_not_run(rt: HostRuntime) -> Result<(), Fail> {
    let opened = open_group(rt.alloc(), 2).ok_or("memory")?;
    let played = run_misrouted::<Brand, Brand, _>(&rt, rt.alloc(), opened, Blank::new(2));
    assert_eq!(rt; played, Some((false, true, true, 1)));
    Ok(())
}
