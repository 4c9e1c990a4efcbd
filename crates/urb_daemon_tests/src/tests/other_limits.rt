//! Groups that are started again on the files of a folder, with another cap or with more nodes.

use super::visits::{Leave, Limits, Seen, is_cleared, visit_under};
use std::fs;
use std::net::{Net, TcpListener, TcpStream};
use std::rt::HostRuntime;
use std::test::Fail;
use urb_daemon::Host;
use urb_options::Fault;

// What a start with journals that don't fit its limits is refused with.
const INCONSISTENT: Fault = Fault::Refused(14, 0);

/// What the clients of a first start saw, and the result of a second start on the same folder.
type Starts = (Seen, Result<Seen, Fault>);

// Starts a group with the first limits on a new folder, and each node's client sends one message
// less than in the second start. Then starts it with the second limits.
fn start_twice<R>(
    threads: &R,
    rt: &HostRuntime,
    folder: &str,
    first: Limits,
    second: Limits,
) -> Result<Starts, Fault>
where
    R: Host + Net<Listener = TcpListener, Stream = TcpStream>,
{
    if !is_cleared(rt, folder) {
        return Err(Fault::Read);
    }
    let before = visit_under(threads, rt, folder, first, 2, Leave::Closed)?;
    let after = visit_under(threads, rt, folder, second, 3, Leave::Closed);
    let _ = fs::remove_dir_all(rt, folder);
    Ok((before, after))
}

// Whether everything was accepted, and the log of each node of the first start begins its log of
// the second start.
fn goes_on(before: &Seen, after: &Seen) -> bool {
    let mut goes_on = before.are_accepted && after.are_accepted;
    for (was, is) in before.last.iter().zip(&after.last) {
        goes_on = goes_on && is.as_slice().starts_with(was.as_slice());
    }
    goes_on && !before.last.is_empty() && before.last.len() <= after.last.len()
}

#[test]
fn a_group_goes_on_under_a_greater_cap_and_with_more_nodes(rt: HostRuntime) -> Result<(), Fail> {
    for (folder, nodes, more_nodes, cap) in [
        // A lone node is full after two messages, and takes a third one.
        ("urbd_greater_cap", 1, 1, 3),
        // So do three nodes.
        ("urbd_greater_caps", 3, 3, 3),
        // All three nodes hold every message, and are more than half of five.
        ("urbd_more_nodes", 3, 5, 3),
    ] {
        let (first, second) = (
            Limits { nodes, cap: 2 },
            Limits {
                nodes: more_nodes,
                cap,
            },
        );
        let (before, after) = start_twice(&rt, &rt, folder, first, second).map_err(|_| "no start")?;
        let after = after.map_err(|_| "refused")?;
        assert!(rt; goes_on(&before, &after), "{folder}");
        assert_eq!(rt; after.last.len(), usize::from(more_nodes));
    }
    Ok(())
}

#[test]
fn a_group_is_refused_if_its_journals_do_not_fit_the_limits(rt: HostRuntime) -> Result<(), Fail> {
    for (folder, nodes, more_nodes, cap) in [
        // Each node has accepted two messages.
        ("urbd_smaller_cap", 1, 1, 1),
        // Three nodes are half of six.
        ("urbd_too_many_nodes", 3, 6, 2),
    ] {
        let (first, second) = (
            Limits { nodes, cap: 2 },
            Limits {
                nodes: more_nodes,
                cap,
            },
        );
        let (_, after) = start_twice(&rt, &rt, folder, first, second).map_err(|_| "no start")?;
        assert_eq!(rt; after.err(), Some(INCONSISTENT), "{folder}");
    }
    Ok(())
}
