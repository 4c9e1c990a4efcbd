//! What operators read on standard error about a running group.

use std::test::Fail;
use urb_daemon::Reports;
use urb_names::{NodeId, Refusal};
use urb_terminal::Terminal;
use urb_turn::{Change, Reporter};

#[test]
fn each_change_of_a_node_is_one_line_on_standard_error(rt: HostRuntime) -> Result<(), Fail> {
    let (two, seven) = (NodeId::new(2).unwrap(), NodeId::new(7).unwrap());
    for (change, line) in [
        (
            Change::Failed(two, Refusal::Device),
            b"urbd: node 2 is down: the storage failed (15)\n".as_slice(),
        ),
        (
            Change::Failed(seven, Refusal::Place(3)),
            b"urbd: node 7 is down: the next position is 3 (16)\n",
        ),
        (
            Change::Crashed(two),
            b"urbd: node 2 is down: asked to crash\n",
        ),
        (Change::CameBack(seven), b"urbd: node 7 is back\n"),
    ] {
        let terminal = Terminal::new(rt.alloc(), &[], b"", true);
        Reports::new(&terminal).report(change);
        let shown = terminal.into_shown(0);
        assert!(rt; shown.is(0, b"", line, line));
    }
    Ok(())
}

#[test]
fn few_descriptors_are_one_line_on_standard_error(rt: HostRuntime) -> Result<(), Fail> {
    let terminal = Terminal::new(rt.alloc(), &[], b"", true);
    Reports::new(&terminal).report_connections(4);
    let shown = terminal.into_shown(0);
    let line = b"urbd: few descriptors: each node serves 4 connections\n".as_slice();
    assert!(rt; shown.is(0, b"", line, line));
    Ok(())
}
