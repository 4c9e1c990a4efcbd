//! The options of `serve` that say how its nodes serve their clients.

use std::alloc::Global;
use std::test::Fail;
use urb_options::{
    Line, MAX_CONNECTIONS, MAX_IDLE_MINUTES, MIN_CONNECTIONS, STANDARD_IDLE_MINUTES,
    ServiceOptions, parse_line,
};
use urb_terminal::Terminal;

/// A whole command line without these options.
const SERVE: [&str; 12] = [
    "urbd",
    "serve",
    "--nodes",
    "3",
    "--cap",
    "10",
    "--dir",
    "d",
    "--base-port",
    "2000",
    "--tick-ms",
    "50",
];

/// What options ask for: the most connections, minutes until an idle client is closed, and whether
/// clients may crash nodes.
type Asked = (u16, u16, bool);

fn parts(service: ServiceOptions) -> Asked {
    (service.connections, service.idle_minutes, service.may_crash)
}

/// What a line with these further words asks for. `None` if it is refused.
fn asked_by(alloc: Global, more: &[&'static str]) -> Result<Option<Asked>, Fail> {
    let terminal = Terminal::new(alloc, &[], b"", true);
    let mut words = Vec::from_slice(alloc, &SERVE)?;
    words.extend_from_slice(more)?;
    match parse_line(&terminal, alloc, words.as_slice()) {
        Ok(Line::Serve(serving)) => Ok(Some(parts(serving.service))),
        _ => Ok(None),
    }
}

#[test]
fn options_say_how_nodes_serve_their_clients(rt: HostRuntime) -> Result<(), Fail> {
    for (more, asked) in [
        ([].as_slice(), (1_000, 10, true)),
        (&["--connections", "4"], (4, 10, true)),
        (&["--connections", "1000"], (1_000, 10, true)),
        (&["--idle-minutes", "1"], (1_000, 1, true)),
        (&["--idle-minutes=1440"], (1_000, 1_440, true)),
        (&["--no-crash"], (1_000, 10, false)),
        (
            &["--no-crash", "--idle-minutes", "7", "--connections", "50"],
            (50, 7, false),
        ),
    ] {
        assert_eq!(rt; asked_by(rt.alloc(), more)?, Some(asked), "{more:?}");
    }
    for more in [
        ["--connections", "3"].as_slice(),
        &["--connections", "1001"],
        &["--connections"],
        &["--connections", "4", "--connections", "4"],
        &["--idle-minutes", "0"],
        &["--idle-minutes", "1441"],
        &["--no-crash", "--no-crash"],
        &["--no-crash=true"],
        &["--no-crash", "yes"],
    ] {
        assert_eq!(rt; asked_by(rt.alloc(), more)?, None, "{more:?}");
    }
    Ok(())
}

#[test]
fn a_service_has_its_ranges(rt: HostRuntime) -> Result<(), Fail> {
    assert_eq!(rt; (MIN_CONNECTIONS, MAX_CONNECTIONS), (4, 1_000));
    assert_eq!(rt; (MAX_IDLE_MINUTES, STANDARD_IDLE_MINUTES), (1_440, 10));
    for (connections, idle_minutes) in [(3, 1), (1_001, 1), (4, 0), (4, 1_441)] {
        let made = ServiceOptions::new(connections, idle_minutes, true);
        assert!(rt; made.is_none(), "{connections} {idle_minutes}");
    }
    for (connections, idle_minutes) in [(4, 1), (1_000, 1_440)] {
        let made = ServiceOptions::new(connections, idle_minutes, false).ok_or("refused")?;
        assert_eq!(rt; parts(made), (connections, idle_minutes, false));
    }
    assert_eq!(rt; parts(ServiceOptions::standard()), (1_000, 10, true));
    Ok(())
}
