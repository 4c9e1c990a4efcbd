//! Clusters that are opened again with other limits: another cap, or more nodes.

use super::{client, one};
use std::alloc::Global;
use std::test::Fail;
use urb_group::*;

/// A cluster over stores in memory, or the refusal of its opening and the stores.
type Opened = Result<Cluster<MemStable>, (Vec<MemStable>, Refusal)>;

// Opens a cluster of this number of nodes with this cap over the stores, and over new stores for
// the nodes that have none.
fn open_over(alloc: Global, nodes: u8, cap: u32, stores: Vec<MemStable>) -> Option<Opened> {
    let config = Config::new(nodes, cap)?;
    let mut stores = stores;
    for _ in 0..nodes {
        if stores.len() < usize::from(nodes) {
            stores.push(MemStable::new(alloc)).ok()?;
        }
    }
    if stores.len() != usize::from(config.n()) {
        return None;
    }
    Some(Cluster::open(alloc, config, stores))
}

// Sends the client's message of this number to node 1, whose store takes it. Returns the number of
// the refusal if the message is refused, and 0 if it isn't.
fn submit(cluster: &mut Cluster<MemStable>, alloc: Global, number: u32) -> Option<u8> {
    let submit = Command::Submit {
        node: one(),
        client: client(),
        number,
        payload: Payload::copied(alloc, b"a").ok()?,
    };
    match cluster.apply(alloc, &submit) {
        Reply::Refused(refusal) => Some(refusal.number()),
        Reply::Same(_) => Some(0),
        _ => match cluster.apply(alloc, &Command::Store(one())) {
            Reply::Refused(refusal) => Some(refusal.number()),
            _ => Some(0),
        },
    }
}

// Sends the client's messages from 1 to this number, and returns the answers to all of them.
fn submit_all(cluster: &mut Cluster<MemStable>, alloc: Global, last: u32) -> Option<Vec<u8>> {
    let mut answers = Vec::new(alloc);
    for number in 1..=last {
        answers.push(submit(cluster, alloc, number)?).ok()?;
    }
    Some(answers)
}

/// What a lone node says once it is opened again: the length of its log, and the answers to the
/// client's messages 1, 2 and 3.
type OpenedLog = (usize, Vec<u8>);

// A lone node with a cap of 2 gets three messages. Then it stops, and is opened with this cap. The
// client sends its messages again. Returns the answers to the first three messages,
// and what the node says after its stop, or the refusal of its opening.
fn fill_and_open(alloc: Global, cap: u32) -> Option<(Vec<u8>, Result<OpenedLog, Refusal>)> {
    let mut full = open_over(alloc, 1, 2, Vec::new(alloc))?.ok()?;
    let first = submit_all(&mut full, alloc, 3)?;
    let opened = open_over(alloc, 1, cap, full.into_stores())?;
    if let Err((_, refusal)) = &opened {
        return Some((first, Err(*refusal)));
    }
    let mut cluster = opened.ok()?;
    let log = cluster.group().log(one())?.len();
    let answers = submit_all(&mut cluster, alloc, 3)?;
    Some((first, Ok((log, answers))))
}

#[test]
fn a_full_node_accepts_more_under_a_greater_cap(rt: HostRuntime) -> Result<(), Fail> {
    let full = Refusal::Full.number();
    for (cap, after) in [
        (2u32, [0, 0, full].as_slice()),
        (3, &[0, 0, 0]),
        (1_000_000, &[0, 0, 0]),
    ] {
        let (first, opened) = fill_and_open(rt.alloc(), cap).ok_or("no cluster")?;
        assert_eq!(rt; first.as_slice(), [0, 0, full].as_slice());
        let (log, answers) = opened.map_err(|_| "refused")?;
        assert_eq!(rt; log, 2, "cap {cap}");
        assert_eq!(rt; answers.as_slice(), after, "cap {cap}");
    }
    Ok(())
}

#[test]
fn a_cap_below_what_a_node_accepted_is_refused(rt: HostRuntime) -> Result<(), Fail> {
    let (_, opened) = fill_and_open(rt.alloc(), 1).ok_or("no cluster")?;
    let refusal = opened.err().ok_or("opened")?;
    let name = Name {
        sender: one(),
        seq: 2,
    };
    let wanted = Refusal::Inconsistent {
        rule: Rule::A,
        node: one(),
        name,
    };
    assert_eq!(rt; refusal, wanted);
    Ok(())
}
