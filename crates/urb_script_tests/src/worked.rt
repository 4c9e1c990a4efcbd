//! Worked scripts, with the answers to each line.
//!
//! The scripts that have a name (`MAJORITY`, `HALF` and so on) are also run with each allocation
//! refused in turn (tests/failing.rt).

use crate::scripts::{FORGOTTEN, HALF, MAJORITY, ONE_NODE, REOPENED, RESENT, Rows, TOLD};
use crate::tests::gives_rows;
use std::process::Abort;
use std::test::Fail;
use urb_script::RunEnd;

/// Scripts, their answers, and how they end.
const WORKED: [(Rows, RunEnd); 27] = [
    // Calls of a node that is down, is storing, or doesn't exist. Of several reasons, bad bytes are
    // reported first, then a bad node, then the node's state.
    (
        &[
            ("group 3 10", "group 3 10"),
            ("crash 2", "down 2"),
            ("raw 2 55", "refused packet short"),
            ("arrive 4 2 1 1", "refused badnode"),
            ("arrive 1 2 1 1", "refused down"),
            ("submit 3 7 1 a", "draft 3.1 at 1"),
            ("arrive 1 3 1 1", "refused busy"),
            ("tick 3", "refused busy"),
            ("tick 2", "refused down"),
            ("tick 4", "refused badnode"),
            ("crash 4", "refused badnode"),
            ("restart 4", "refused badnode"),
        ],
        RunEnd::Whole,
    ),
    // A `fail` without a draft is refused, and the next store works.
    (
        &[
            ("group 1 10", "group 1 10"),
            ("fail 1 old", "refused stale"),
            ("submit 1 7 1 a", "draft 1.1 at 1"),
            ("stored 1", "accepted 1.1 sent 0 released 1"),
        ],
        RunEnd::Whole,
    ),
    // The greatest values that lines may have.
    (
        &[
            ("group 7 1000000", "group 7 1000000"),
            ("submit 7 65535 4294967295 !~", "refused gap 1"),
            ("arrive 6 7 7 4294967295", "refused forged"),
        ],
        RunEnd::Whole,
    ),
    // A node crashes and restarts. Then a packet shows that node 2 has stored its message, and with
    // its own copy that is a majority.
    (
        &[
            ("group 3 10", "group 3 10"),
            ("submit 1 7 1 hi", "draft 1.1 at 1"),
            ("stored 1", "accepted 1.1 sent 2 released 0"),
            ("arrive 1 2 1 1", "draft 1.1 at 1"),
            ("stored 2", "taken 1.1 sent 2 released 1"),
            ("crash 1", "down 1"),
            ("restart 1", "up 1"),
            ("tick 1", "sent 2:1.1 3:1.1"),
            ("arrive 2 1 1 1", "draft 1.1 at 2"),
            ("stored 1", "taken 1.1 sent 0 released 1"),
            ("log 1", "log 1: 1.1=hi"),
            ("held 1.1", "held 1.1: 1 2"),
        ],
        RunEnd::Whole,
    ),
    (ONE_NODE, RunEnd::Whole),
    (MAJORITY, RunEnd::Whole),
    // Names are released in order of number.
    (
        &[
            ("group 3 10", "group 3 10"),
            ("submit 1 7 1 a", "draft 1.1 at 1"),
            ("stored 1", "accepted 1.1 sent 2 released 0"),
            ("submit 1 7 2 b", "draft 1.2 at 2"),
            ("stored 1", "accepted 1.2 sent 2 released 0"),
            ("arrive 1 2 1 2", "draft 1.2 at 1"),
            ("stored 2", "taken 1.2 sent 2 released 0"),
            ("arrive 1 2 1 1", "draft 1.1 at 2"),
            ("stored 2", "taken 1.1 sent 2 released 2"),
            ("log 2", "log 2: 1.1=a 1.2=b"),
        ],
        RunEnd::Whole,
    ),
    // A message that is too long for version 1 comes in a packet of version 2. Its repeat is
    // answered, with the flag of the certificate.
    (
        &[
            ("group 3 10", "group 3 10"),
            ("submit 1 7 1 @", "draft 1.1 at 1"),
            ("stored 1", "accepted 1.1 sent 2 released 0"),
            ("arrive 1 2 1 1", "draft 1.1 at 1"),
            ("stored 2", "taken 1.1 sent 2 released 1"),
            ("arrive 1 2 1 1", "answered 1.1 to 1 flags 1"),
            ("log 2", "log 2: 1.1=@"),
        ],
        RunEnd::Whole,
    ),
    // A packet of a message that its source hasn't stored is forged. If the source itself gets it,
    // the refusal is `badnode`, since the packet's target is node 2.
    (
        &[
            ("group 3 10", "group 3 10"),
            ("submit 1 7 1 a", "draft 1.1 at 1"),
            ("arrive 1 2 1 1", "refused forged"),
            (
                "raw 2 55420101020100000001000700000001000161",
                "refused forged",
            ),
            (
                "raw 1 55420101020100000001000700000001000161",
                "refused badnode",
            ),
        ],
        RunEnd::Whole,
    ),
    // A store that failed and kept nothing leaves no message.
    (
        &[
            ("group 1 10", "group 1 10"),
            ("submit 1 7 1 a", "draft 1.1 at 1"),
            ("fail 1 old", "down 1"),
            ("restart 1", "up 1"),
            ("submit 1 7 1 b", "draft 1.1 at 1"),
            ("stored 1", "accepted 1.1 sent 0 released 1"),
            ("log 1", "log 1: 1.1=b"),
        ],
        RunEnd::Whole,
    ),
    // A store that failed and kept the record shows it after a restart, and a tick sends it.
    (
        &[
            ("group 3 10", "group 3 10"),
            ("submit 1 7 1 a", "draft 1.1 at 1"),
            ("fail 1 new", "down 1"),
            ("held 1.1", "held 1.1:"),
            ("restart 1", "up 1"),
            ("held 1.1", "held 1.1: 1"),
            ("tick 1", "sent 2:1.1 3:1.1"),
            ("submit 1 7 1 a", "accepted 1.1"),
            ("submit 1 7 1 b", "refused conflict"),
        ],
        RunEnd::Whole,
    ),
    // No node is counted twice.
    (
        &[
            ("group 5 10", "group 5 10"),
            ("submit 1 7 1 a", "draft 1.1 at 1"),
            ("stored 1", "accepted 1.1 sent 4 released 0"),
            ("arrive 1 2 1 1", "draft 1.1 at 1"),
            ("stored 2", "taken 1.1 sent 4 released 0"),
            ("arrive 1 2 1 1", "again 1.1"),
            ("arrive 1 2 1 1", "again 1.1"),
        ],
        RunEnd::Whole,
    ),
    (HALF, RunEnd::Whole),
    (FORGOTTEN, RunEnd::Whole),
    // A client's numbers begin at one.
    (
        &[
            ("group 3 10", "group 3 10"),
            ("submit 1 7 2 a", "refused gap 1"),
            ("submit 1 7 0 a", "refused gap 1"),
        ],
        RunEnd::Whole,
    ),
    // A full sender still answers a repeat.
    (
        &[
            ("group 1 2", "group 1 2"),
            ("submit 1 7 1 a", "draft 1.1 at 1"),
            ("stored 1", "accepted 1.1 sent 0 released 1"),
            ("submit 1 7 2 b", "draft 1.2 at 2"),
            ("stored 1", "accepted 1.2 sent 0 released 1"),
            ("submit 1 7 3 c", "refused full"),
            ("submit 1 7 2 b", "accepted 1.2"),
        ],
        RunEnd::Whole,
    ),
    // A node that is storing a record can only finish that or crash. A node that is down can only
    // restart. Without a draft, `stored` and `fail` ask the store nothing.
    (
        &[
            ("group 3 10", "group 3 10"),
            ("submit 1 7 1 a", "draft 1.1 at 1"),
            ("submit 1 8 1 b", "refused busy"),
            ("restart 1", "refused notdown"),
            ("crash 1", "down 1"),
            ("submit 1 8 1 b", "refused down"),
            ("stored 4", "refused badnode"),
            ("stored 2", "refused stale"),
            ("stored 1", "refused down"),
            ("fail 4 new", "refused badnode"),
            ("fail 2 new", "refused stale"),
            ("fail 1 new", "refused down"),
            ("restart 1", "up 1"),
            ("held 1.1", "held 1.1:"),
        ],
        RunEnd::Whole,
    ),
    // Bytes that are no packet are refused by their first fault. The last two are packets, and are
    // refused for what they say.
    (
        &[
            ("group 3 10", "group 3 10"),
            (
                "raw 2 5542010102010000000100070000000100",
                "refused packet short",
            ),
            (
                "raw 2 55430101020100000001000700000001000161",
                "refused packet magic",
            ),
            (
                "raw 2 55420901020100000001000700000001000161",
                "refused packet version",
            ),
            (
                "raw 2 5542010102010000000100070000000100016161",
                "refused packet length",
            ),
            (
                "raw 2 55420102020100000001000700000001000161",
                "refused packet range",
            ),
            (
                "raw 2 55420101020100000001000700000001000161",
                "refused forged",
            ),
            (
                "raw 3 55420101020100000001000700000001000161",
                "refused badnode",
            ),
        ],
        RunEnd::Whole,
    ),
    // Payloads of 0 and of 16,384 bytes are accepted, one of 16,385 isn't.
    (
        &[
            ("group 1 3", "group 1 3"),
            ("submit 1 7 1 -", "draft 1.1 at 1"),
            ("stored 1", "accepted 1.1 sent 0 released 1"),
            ("submit 1 7 2 @", "draft 1.2 at 2"),
            ("stored 1", "accepted 1.2 sent 0 released 1"),
            ("submit 1 7 3 @x", "refused toolong"),
            ("log 1", "log 1: 1.1=- 1.2=@"),
        ],
        RunEnd::Whole,
    ),
    (RESENT, RunEnd::Whole),
    (REOPENED, RunEnd::Whole),
    (TOLD, RunEnd::Whole),
    // A stop loses a draft, whose name is given again, and keeps what a failed store has kept.
    (
        &[
            ("group 3 10", "group 3 10"),
            ("submit 1 7 1 a", "draft 1.1 at 1"),
            ("reopen", "open"),
            ("held 1.1", "held 1.1:"),
            ("submit 1 7 1 b", "draft 1.1 at 1"),
            ("fail 1 new", "down 1"),
            ("reopen", "open"),
            ("held 1.1", "held 1.1: 1"),
            ("submit 1 7 1 b", "accepted 1.1"),
        ],
        RunEnd::Whole,
    ),
    // All nodes stop at once. What was stored stays, and a draft that wasn't stored is lost. The
    // client's next message at node 1 gets the next number.
    (
        &[
            ("group 3 10", "group 3 10"),
            ("submit 1 7 1 a", "draft 1.1 at 1"),
            ("stored 1", "accepted 1.1 sent 2 released 0"),
            ("arrive 1 2 1 1", "draft 1.1 at 1"),
            ("stored 2", "taken 1.1 sent 2 released 1"),
            ("submit 2 7 1 b", "draft 2.1 at 2"),
            ("crash 3", "down 3"),
            ("reopen", "open"),
            ("log 2", "log 2: 1.1=a"),
            ("log 1", "log 1:"),
            ("held 1.1", "held 1.1: 1 2"),
            ("held 2.1", "held 2.1:"),
            ("submit 1 7 1 a", "accepted 1.1"),
            ("submit 1 7 2 c", "draft 1.2 at 2"),
            ("restart 3", "refused notdown"),
        ],
        RunEnd::Whole,
    ),
    // A record that a failed store kept is found again.
    (
        &[
            ("group 1 10", "group 1 10"),
            ("submit 1 7 1 a", "draft 1.1 at 1"),
            ("fail 1 new", "down 1"),
            ("reopen", "open"),
            ("log 1", "log 1: 1.1=a"),
            ("submit 1 7 1 b", "refused conflict"),
            ("submit 1 7 2 b", "draft 1.2 at 2"),
            ("reopen", "open"),
            ("submit 1 7 2 c", "draft 1.2 at 2"),
        ],
        RunEnd::Whole,
    ),
    // Refused commands, and, as a bad line, a packet of a node to itself.
    (
        &[
            ("group 3 10", "group 3 10"),
            ("stored 1", "refused stale"),
            ("submit 4 7 1 a", "refused badnode"),
            ("arrive 4 1 1 1", "refused badnode"),
            ("crash 2", "down 2"),
            ("crash 2", "refused down"),
            ("stored 2", "refused down"),
            ("log 2", "log 2:"),
            ("arrive 1 1 1 1", "bad line 9"),
        ],
        RunEnd::BadLine(9),
    ),
    // Two senders are delivered in either order.
    (
        &[
            ("group 3 10", "group 3 10"),
            ("submit 1 7 1 a", "draft 1.1 at 1"),
            ("stored 1", "accepted 1.1 sent 2 released 0"),
            ("submit 2 7 1 b", "draft 2.1 at 1"),
            ("stored 2", "accepted 2.1 sent 2 released 0"),
            ("arrive 1 3 1 1", "draft 1.1 at 1"),
            ("stored 3", "taken 1.1 sent 2 released 1"),
            ("arrive 2 3 2 1", "draft 2.1 at 2"),
            ("stored 3", "taken 2.1 sent 2 released 1"),
            ("arrive 3 2 2 1", "draft 2.1 at 2"),
            ("stored 2", "taken 2.1 sent 0 released 1"),
            ("arrive 3 2 1 1", "draft 1.1 at 3"),
            ("stored 2", "taken 1.1 sent 2 released 1"),
            ("log 2", "log 2: 2.1=b 1.1=a"),
            ("log 3", "log 3: 1.1=a 2.1=b"),
            ("held 2.1", "held 2.1: 2 3"),
        ],
        RunEnd::Whole,
    ),
];

#[test]
fn worked_scripts_are_answered(rt: HostRuntime) -> Result<(), Fail> {
    for (rows, ended) in WORKED {
        gives_rows(&rt, rows, ended)?;
    }
    Ok(())
}
