//! A feed is made in portions, and skips what is delivered.

use super::{Held, group_of};
use std::alloc::Global;
use std::test::Fail;
use urb_feed::{Feed, MOST_PACKETS, PORTION};
use urb_group::Group;
use urb_names::NodeId;

// The lengths of a feed's portions.
fn lengths_of(alloc: Global, group: &Group, target: NodeId) -> Option<Vec<usize>> {
    let mut feed = Feed::begin(group, target);
    let mut lengths = Vec::new(alloc);
    for _ in 0..1_000u32 {
        if feed.is_done() {
            return Some(lengths);
        }
        lengths
            .push(feed.next_portion(alloc, group).ok()?.len())
            .ok()?;
    }
    None
}

// The lengths of the portions that node 3 of three is fed, if nodes 1 and 2 hold 100 messages of
// node 1, and node 3 the first `held` of these.
fn lengths_after(alloc: Global, held: u32) -> Option<Vec<usize>> {
    let all = [Held {
        stored: 100,
        certified: 100,
    }];
    let part = [Held {
        stored: held,
        certified: held,
    }];
    let group = group_of(alloc, &[&all, &all, &part])?;
    lengths_of(alloc, &group, NodeId::new(3)?)
}

// Whether the portions after so many messages have these lengths.
fn are_lengths(alloc: Global, held: u32, wanted: &[usize]) -> bool {
    match lengths_after(alloc, held) {
        Some(lengths) => lengths.as_slice() == wanted,
        None => false,
    }
}

#[test]
fn a_portion_has_the_packets_of_a_few_numbers(rt: HostRuntime) -> Result<(), Fail> {
    assert_eq!(rt; (PORTION, MOST_PACKETS), (32, 1_568));
    assert!(rt; are_lengths(rt.alloc(), 0, &[64, 64, 64, 8]));
    Ok(())
}

#[test]
fn a_feed_skips_what_is_delivered(rt: HostRuntime) -> Result<(), Fail> {
    assert!(rt; are_lengths(rt.alloc(), 99, &[2]));
    assert!(rt; are_lengths(rt.alloc(), 100, &[0]));
    Ok(())
}
