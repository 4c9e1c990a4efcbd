//! Nodes that report their certificates: once each node has heard of all, ticks send nothing.

ghost use Rattle.std.specs.Prelude.{◌≡◌, ◌<◌};
ghost use Rattle.urb_show.specs.Houses.{IsNamed};

use super::{open_group, open_hub, submit};
use std::alloc::Global;
use std::marker::Brand;
use std::sync::Wait;
use std::sync::ledger::Blank;
use std::test::Fail;
use std::time::Clock;
use urb_group::MemStable;
use urb_link::{MemoryLink, Ticket};
use urb_names::NodeId;
use urb_show::{House, HouseName, Opened};
use urb_turn::{Hub, HubName, Job, OpenGate, Silent, Tally};
use urb_worker::{WorkerSetting, serve_from};

// Nodes with their stores. Each node does a job when the test asks it to.
#[derive(Drop)]
struct Nodes<'a, 'r, K: HouseName, L: HubName, R: Wait + Clock> {
    rt: &'r R,
    alloc: Global,
    hub: &'a Hub<K, L>,
    link: &'a MemoryLink<'r, R>,
    stores: Vec<MemStable>,
    count: u8,
}

impl<'a, 'r, K: HouseName, L: HubName, R: Wait + Clock> Nodes<'a, 'r, K, L, R> {
    // Has a node's worker do a job. Without memory for that, the job is lost.
    fn work(&mut self, node: NodeId, job: Job, tally: Tally<K, L>) -> Tally<K, L> {
        let Some(store) = self.stores.get_mut(usize::from(node.number()) - 1) else {
            return tally;
        };
        let Ok((line, jobs)) = crossbeam_channel::bounded(self.alloc, 1) else {
            return tally;
        };
        let ticket = Ticket { job, answer: None };
        if line.send(self.rt, ticket).is_err() {
            return tally;
        }
        drop(line);
        let (gate, reporter) = (OpenGate, Silent);
        let setting = WorkerSetting::new(
            self.rt, self.alloc, self.hub, self.link, &gate, &reporter,
        );
        let mut outlets = setting.outlets_for_worker();
        let (tally, _) = serve_from(&setting, node, store, &mut outlets, &jobs, tally);
        tally
    }

    // Brings each node what was sent to it, twenty times over, and counts the packets.
    fn deliver(&mut self, tally: Tally<K, L>) -> (usize, Tally<K, L>) {
        let mut tally = tally;
        let mut count: usize = 0;
        for _ in 0..20u8 {
            for number in 0..self.count {
                let Some(node) = NodeId::new(number.saturating_add(1)) else {
                    break;
                };
                for bytes in self.link.empty(node) {
                    count = count.saturating_add(1);
                    tally = self.work(node, Job::Arrive { node, bytes }, tally);
                }
            }
        }
        (count, tally)
    }

    // Ticks each node, and returns how many packets that leads to.
    fn tick(&mut self, tally: Tally<K, L>) -> (usize, Tally<K, L>) {
        let mut tally = tally;
        for number in 0..self.count {
            let Some(node) = NodeId::new(number.saturating_add(1)) else {
                break;
            };
            tally = self.work(node, Job::Tick(node), tally);
        }
        self.deliver(tally)
    }

    // The number of packets that a submit at the first node leads to, and then two rounds of ticks.
    fn play(&mut self, tally: Tally<K, L>) -> ((usize, usize, usize), Tally<K, L>) {
        let node = NodeId::new(1).unwrap();
        let tally = match submit(self.alloc, node, 1) {
            Some(job) => self.work(node, job, tally),
            None => tally,
        };
        let (broadcast, tally) = self.deliver(tally);
        let (first, tally) = self.tick(tally);
        let (second, tally) = self.tick(tally);
        ((broadcast, first, second), tally)
    }
}

// Whether each of `count` nodes has delivered one message.
fn have_delivered<K: HouseName>(house: &House<K>, count: u8) -> bool {
    for number in 0..count {
        let Some(node) = NodeId::new(number.saturating_add(1)) else {
            return false;
        };
        match house.log(node) {
            Some([_]) => {}
            _ => return false,
        }
    }
    true
}

// What these nodes play.
fn play_with<K: HouseName, L: HubName, R: Wait + Clock>(
    nodes: Nodes<'_, '_, K, L, R>,
    tally: Tally<K, L>,
) -> ((usize, usize, usize), Tally<K, L>) {
    let mut nodes = nodes;
    nodes.play(tally)
}

// The packets of a group that plays, and whether all nodes have delivered the message.
fn run_until_quiet<K: HouseName, L: HubName, R: Wait + Clock>(
    rt: &R,
    alloc: Global,
    opened: Opened,
    blank: Blank,
    stores: Vec<MemStable>,
    count: u8,
) -> Option<((usize, usize, usize), bool)>
    requires names { IsNamed opened K.book K.history K.base K.origin }
    requires name { blank.name ≡ L.name }
    requires parts { (blank.parts ≡ L.parts) × (L.parts ≡ count) × (opened.group.size.n ≡ count) }
    requires count { 0 < count }
    requires start { L.start ≡ 0 }
{
    let Ok(link) = MemoryLink::new(rt, alloc) else {
        drop(opened.close());
        return None;
    };
    let (hub, mut tallies, readers) = open_hub::<K, L, R>(rt, alloc, opened, blank)?;
    drop(readers);
    let tally = tallies.pop().unwrap();
    let nodes = Nodes {
        rt,
        alloc,
        hub: &hub,
        link: &link,
        stores,
        count,
    };
    let (counts, tally) = play_with(nodes, tally);
    tallies.push_reserved(tally);
    let (house, _) = hub.close(tallies);
    let delivered = have_delivered(&house, count);
    drop(house.close(rt));
    Some((counts, delivered))
}

// `count` empty stores.
fn make_stores(alloc: Global, count: u8) -> Option<Vec<MemStable>> {
    let mut stores = Vec::new(alloc);
    for _ in 0..count {
        stores.push(MemStable::new(alloc)).ok()?;
    }
    Some(stores)
}

#[test]
fn ticks_send_nothing_once_all_have_heard(rt: HostRuntime) -> Result<(), Fail> {
    let alloc = rt.alloc();
    let stores = make_stores(alloc, 3).ok_or("memory")?;
    let opened = open_group(alloc, 3).ok_or("memory")?;
    let played = run_until_quiet::<Brand, Brand, _>(&rt, alloc, opened, Blank::new(3), stores, 3);
    // Only node 2 has not heard of the first node's certificate: its first tick asks, and is
    // answered.
    assert_eq!(rt; played, Some(((9, 2, 0), true)));
    Ok(())
}

// A submit at the first of seven nodes comes to all of them. Once each has heard of all, ticks send
// nothing.
#[test]
fn seven_nodes_deliver_and_fall_silent(rt: HostRuntime) -> Result<(), Fail> {
    let alloc = rt.alloc();
    let stores = make_stores(alloc, 7).ok_or("memory")?;
    let opened = open_group(alloc, 7).ok_or("memory")?;
    let played = run_until_quiet::<Brand, Brand, _>(&rt, alloc, opened, Blank::new(7), stores, 7);
    let silent = match played {
        Some(((_, _, last), delivered)) => Some((last, delivered)),
        None => None,
    };
    assert_eq!(rt; silent, Some((0, true)));
    Ok(())
}
