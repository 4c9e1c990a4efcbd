//! Groups of seven nodes: a tick whose outbox is full, and a message that comes to all.

ghost use Rattle.std.specs.Prelude.{◌≡◌};
ghost use Rattle.urb_show.specs.Houses.{IsNamed};

use super::{open_group, open_hub, submit};
use std::alloc::Global;
use std::marker::Brand;
use std::sync::Wait;
use std::sync::ledger::Blank;
use std::test::Fail;
use urb_group::{MemStable, Reply};
use urb_names::NodeId;
use urb_show::{HouseName, Opened};
use urb_turn::{Hub, HubName, Job, OpenGate, Tally};

// The number of packets that a tick's reply hands out.
fn sent_count(reply: &Reply) -> usize {
    match reply {
        Reply::Sent(packets) => packets.len(),
        _ => 0,
    }
}

// Has the last of seven nodes accept the given number of messages, while no other node gets its
// packets. Returns how many packets its tick then sends.
fn tick_sends<K: HouseName, L: HubName, R: Wait>(
    rt: &R,
    alloc: Global,
    hub: &Hub<K, L>,
    messages: u32,
    tally: Tally<K, L>,
) -> (usize, Tally<K, L>) {
    let node = NodeId::new(7).unwrap();
    let mut store = MemStable::new(alloc);
    let mut tally = tally;
    for number in 0..messages {
        if let Some(job) = submit(alloc, node, number.saturating_add(1)) {
            let (_, counted) = hub.work(rt, alloc, node, job, &mut store, &OpenGate, tally);
            tally = counted;
        }
    }
    let (finished, tally) = hub.work(
        rt,
        alloc,
        node,
        Job::Tick(node),
        &mut store,
        &OpenGate,
        tally,
    );
    (sent_count(finished.reply()), tally)
}

// Does this at a new group of seven.
fn run_ticks<K: HouseName, L: HubName, R: Wait>(
    rt: &R,
    alloc: Global,
    opened: Opened,
    blank: Blank,
    messages: u32,
) -> Option<usize>
    requires names { IsNamed opened K.book K.history K.base K.origin }
    requires name { blank.name ≡ L.name }
    requires parts { (blank.parts ≡ L.parts) × (L.parts ≡ 7) × (opened.group.size.n ≡ 7) }
    requires start { L.start ≡ 0 }
{
    let (hub, mut tallies, readers) = open_hub::<K, L, R>(rt, alloc, opened, blank)?;
    drop(readers);
    let tally = tallies.pop().unwrap();
    let (packets, tally) = tick_sends(rt, alloc, &hub, messages, tally);
    tallies.push_reserved(tally);
    let (house, _) = hub.close(tallies);
    drop(house.close(rt));
    Some(packets)
}

#[test]
fn a_tick_of_seven_nodes_sends_sixteen_names_to_six(rt: HostRuntime) -> Result<(), Fail> {
    let full = open_group(rt.alloc(), 7).ok_or("memory")?;
    let full = run_ticks::<Brand, Brand, _>(&rt, rt.alloc(), full, Blank::new(7), 17);
    assert_eq!(rt; full, Some(96));
    let few = open_group(rt.alloc(), 7).ok_or("memory")?;
    let few = run_ticks::<Brand, Brand, _>(&rt, rt.alloc(), few, Blank::new(7), 2);
    assert_eq!(rt; few, Some(12));
    Ok(())
}
