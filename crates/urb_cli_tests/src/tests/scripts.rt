//! Scripts and their status, and the texts of faults.

use super::shown_by;
use std::test::Fail;
use urb_options::{Fault, report_fault};
use urb_terminal::Terminal;

const ONE_NODE: &[u8] = b"group 1 10\nsubmit 1 7 1 hi\nstored 1\nlog 1\n";

const ONE_NODE_ANSWERS: &[u8] =
    b"group 1 10\ndraft 1.1 at 1\naccepted 1.1 sent 0 released 1\nlog 1: 1.1=hi\n";

// The script of the repository's examples, and its answers.
const THREE_NODES: &[u8] = b"group 3 10\n\
submit 1 7 1 hi\n\
stored 1\n\
arrive 1 2 1 1\n\
stored 2\n\
log 2\n\
crash 1\n\
submit 1 7 2 there\n\
log 1\n\
restart 1\n\
tick 1\n\
arrive 2 1 1 1\n\
stored 1\n\
log 1\n\
held 1.1\n\
submit 1 7 1 hi\n\
submit 1 7 2 there\n\
fail 1 new\n\
restart 1\n\
held 1.2\n\
tick 1\n\
arrive 1 3 1 2\n\
stored 3\n\
log 3\n\
arrive 1 3 1 1\n\
stored 3\n\
log 3\n\
arrive 3 2 1 2\n\
stored 2\n\
log 2\n\
raw 2 55420101020100000001000700000001000161\n\
held 1.2\n\
reopen\n\
log 1\n\
log 3\n\
submit 1 7 3 more\n";

const THREE_NODES_ANSWERS: &[u8] = b"group 3 10\n\
draft 1.1 at 1\n\
accepted 1.1 sent 2 released 0\n\
draft 1.1 at 1\n\
taken 1.1 sent 2 released 1\n\
log 2: 1.1=hi\n\
down 1\n\
refused down\n\
log 1:\n\
up 1\n\
sent 2:1.1 3:1.1\n\
draft 1.1 at 2\n\
taken 1.1 sent 0 released 1\n\
log 1: 1.1=hi\n\
held 1.1: 1 2\n\
accepted 1.1\n\
draft 1.2 at 3\n\
down 1\n\
up 1\n\
held 1.2: 1\n\
sent 2:1.1 3:1.1 2:1.2 3:1.2\n\
draft 1.2 at 1\n\
taken 1.2 sent 2 released 0\n\
log 3:\n\
draft 1.1 at 2\n\
taken 1.1 sent 2 released 2\n\
log 3: 1.1=hi 1.2=there\n\
draft 1.2 at 2\n\
taken 1.2 sent 2 released 1\n\
log 2: 1.1=hi 1.2=there\n\
refused forged\n\
held 1.2: 1 2 3\n\
open\n\
log 1: 1.1=hi\n\
log 3: 1.1=hi 1.2=there\n\
draft 1.3 at 4\n";

#[test]
fn scripts_are_run(rt: HostRuntime) -> Result<(), Fail> {
    let words = [b"urbd".as_slice(), b"replay"];
    let shown = shown_by(rt.alloc(), words.as_slice(), ONE_NODE, true);
    assert!(rt; shown.is(0, ONE_NODE_ANSWERS, b"", b""));
    assert_eq!(rt; shown.errors.len(), 0);
    let shown = shown_by(rt.alloc(), words.as_slice(), THREE_NODES, true);
    assert!(rt; shown.is(0, THREE_NODES_ANSWERS, b"", b""));
    let shown = shown_by(
        rt.alloc(),
        words.as_slice(),
        b"group 1 10\nlog 8\nlog 1\n",
        true,
    );
    assert!(rt; shown.is(2, b"group 1 10\nbad line 2\n", b"", b""));
    assert_eq!(rt; shown.errors.len(), 0);
    let shown = shown_by(rt.alloc(), words.as_slice(), ONE_NODE, false);
    assert!(rt; shown.is(1, b"", b"urbd: write failed\n", b"urbd: write failed\n"));
    Ok(())
}

#[test]
fn faults_have_their_texts(rt: HostRuntime) -> Result<(), Fail> {
    for (fault, text) in [
        (Fault::Read, b"urbd: read failed\n".as_slice()),
        (Fault::Write, b"urbd: write failed\n"),
        (Fault::NoMemory, b"urbd: no memory\n"),
        (Fault::Network, b"urbd: network failed\n"),
        (Fault::BadReply, b"urbd: bad reply\n"),
        (Fault::Refused(14, 0), b"urbd: refused 14 0\n"),
    ] {
        let terminal = Terminal::new(rt.alloc(), &[], b"", true);
        assert_eq!(rt; report_fault(&terminal, fault), 1);
        let shown = terminal.into_shown(1);
        assert!(rt; shown.is(1, b"", text, text), "{fault:?}");
    }
    Ok(())
}
