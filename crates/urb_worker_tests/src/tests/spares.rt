//! Buffers of datagrams that come back to their node's receiver.

use std::alloc::Global;
use std::marker::Brand;
use std::test::Fail;
use urb_link::{Link, MemoryLink, PacedLink, SPARES, Spares, Station};
use urb_names::{NoMemory, NodeId};
use urb_turn::{Finished, HandledDatagram, Job};

// Takes a buffer more often than any can be kept, and counts those with this room.
fn count_kept(spares: &Spares, room: usize) -> usize {
    let mut count: usize = 0;
    for _i in 0..=SPARES {
        if let Some(buffer) = spares.take() {
            if buffer.capacity() == room {
                count = count.saturating_add(1);
            }
        }
    }
    count
}

// A datagram that a node's worker has handled, in a buffer with room for 100 bytes.
fn handled(alloc: Global, node: NodeId) -> Result<Option<HandledDatagram>, NoMemory> {
    let bytes = Vec::with_capacity(alloc, 100)?;
    Ok(Finished::<Brand>::misrouted(Job::Arrive { node, bytes }).into_datagram())
}

#[test]
fn a_node_keeps_a_few_buffers(rt: HostRuntime) -> Result<(), Fail> {
    let link = MemoryLink::new(&rt, rt.alloc()).map_err(|_| "memory")?;
    let stations = vec![in rt.alloc(); Station::open(&rt, 0, 0)?]?;
    let paced = PacedLink::new(&rt, &link, stations.as_slice());
    let node = NodeId::new(1).ok_or("no node")?;
    assert!(rt; stations[0].spares.take().is_none());
    for _i in 0..=SPARES {
        let datagram = handled(rt.alloc(), node).map_err(|_| "memory")?;
        paced.take_back(datagram.ok_or("no datagram")?);
    }
    assert_eq!(rt; count_kept(&stations[0].spares, 100), SPARES);
    Ok(())
}

#[test]
fn a_link_gives_a_buffer_back_to_its_node(rt: HostRuntime) -> Result<(), Fail> {
    let link = MemoryLink::new(&rt, rt.alloc()).map_err(|_| "memory")?;
    let stations = vec![in rt.alloc(); Station::open(&rt, 0, 0)?, Station::open(&rt, 0, 0)?]?;
    let paced = PacedLink::new(&rt, &link, stations.as_slice());
    let node = NodeId::new(2).ok_or("no node")?;
    let datagram = handled(rt.alloc(), node).map_err(|_| "memory")?;
    paced.take_back(datagram.ok_or("no datagram")?);
    let kept = (
        count_kept(&stations[0].spares, 100),
        count_kept(&stations[1].spares, 100),
    );
    assert_eq!(rt; kept, (0, 1));
    // For a node that the group doesn't have, no buffer is kept.
    let stranger = NodeId::new(3).ok_or("no node")?;
    let datagram = handled(rt.alloc(), stranger).map_err(|_| "memory")?;
    paced.take_back(datagram.ok_or("no datagram")?);
    // A link without stations keeps no buffer either.
    let datagram = handled(rt.alloc(), node).map_err(|_| "memory")?;
    link.take_back(datagram.ok_or("no datagram")?);
    assert_eq!(rt; count_kept(&stations[1].spares, 100), 0);
    Ok(())
}
