//! Groups that are ended and started again on the files of a folder.

use super::visits::{Leave, Seen, is_cleared, visit};
use std::fs;
use std::net::{Net, TcpListener, TcpStream};
use std::rt::HostRuntime;
use std::test::Fail;
use urb_daemon::Host;
use urb_options::Fault;

// Starts a group of the given number of nodes three times on one folder. Its journals are closed
// after the first start, and dropped after the second. At each start the clients send all their
// messages again, and a new one.
fn three_starts<R>(
    threads: &R,
    rt: &HostRuntime,
    folder: &str,
    nodes: u8,
) -> Result<[Seen; 3], Fault>
where
    R: Host + Net<Listener = TcpListener, Stream = TcpStream>,
{
    if !is_cleared(rt, folder) {
        return Err(Fault::Read);
    }
    let first = visit(threads, rt, folder, nodes, 1, Leave::Closed)?;
    let second = visit(threads, rt, folder, nodes, 2, Leave::Dropped)?;
    let third = visit(threads, rt, folder, nodes, 3, Leave::Closed)?;
    let _ = fs::remove_dir_all(rt, folder);
    Ok([first, second, third])
}

// Whether the log of each node continues the log from before.
fn go_on(before: &Seen, after: &Seen) -> bool {
    let mut go_on = before.last.len() == after.first.len() && before.last.len() == after.last.len();
    for ((was, opened), ended) in before.last.iter().zip(&after.first).zip(&after.last) {
        go_on = go_on && was == opened && ended.as_slice().starts_with(was.as_slice());
    }
    go_on
}

// Whether everything went well at each of three starts of a group of the given number of nodes.
fn keeps_all<R>(threads: &R, rt: &HostRuntime, folder: &str, nodes: u8) -> Result<bool, Fault>
where
    R: Host + Net<Listener = TcpListener, Stream = TcpStream>,
{
    let [first, second, third] = three_starts(threads, rt, folder, nodes)?;
    let are_accepted = first.are_accepted && second.are_accepted && third.are_accepted;
    let are_whole = first.last.len() == usize::from(nodes);
    Ok(are_accepted && are_whole && go_on(&first, &second) && go_on(&second, &third))
}

#[test]
fn a_node_has_all_again_after_a_stop_and_after_a_kill(rt: HostRuntime) -> Result<(), Fail> {
    assert_eq!(rt; keeps_all(&rt, &rt, "urbd_one_again", 1), Ok(true));
    Ok(())
}

#[test]
fn three_nodes_have_all_again_after_a_stop_and_after_a_kill(rt: HostRuntime) -> Result<(), Fail> {
    assert_eq!(rt; keeps_all(&rt, &rt, "urbd_three_again", 3), Ok(true));
    Ok(())
}

#[test]
fn seven_nodes_have_all_again_after_a_stop_and_after_a_kill(rt: HostRuntime) -> Result<(), Fail> {
    assert_eq!(rt; keeps_all(&rt, &rt, "urbd_seven_again", 7), Ok(true));
    Ok(())
}
