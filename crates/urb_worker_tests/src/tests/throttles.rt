//! Sessions that wait with their submits while a node of the group is far behind.

ghost use Rattle.std.specs.Prelude.{◌≡◌, ◌≤◌, length};
ghost use Rattle.urb_client.specs.Requests.{IsAsked, asked_by};
ghost use Rattle.urb_show.specs.Houses.{IsNamed};

use super::{open_group, open_hall, service_of};
use crossbeam_channel::Sender;
use std::alloc::Global;
use std::io;
use std::marker::Brand;
use std::net::{Net, TcpListener, TcpStream};
use std::sync::Wait;
use std::test::Fail;
use std::time::{Clock, Duration, Instant};
use urb_client::{Control, Desk, Request};
use urb_desk::NodeDesk;
use urb_link::{InFlight, LONG_BACKLOG, Station, Throttle, Ticket};
use urb_names::{ClientId, NodeId, Payload};
use urb_show::{HouseName, LogReader, Opened};

// How long a session waits while the backlog stays long, in milliseconds.
const CALM: u64 = 100;

// How long a session waits with a submit.
fn time_of_wait<R: Clock>(rt: &R, throttle: Throttle<'_>) -> io::Result<Duration> {
    let began = Instant::now(rt)?;
    throttle.await_calm(rt);
    began.elapsed(rt)
}

#[test]
fn a_session_waits_while_its_node_is_far_behind(rt: HostRuntime) -> Result<(), Fail> {
    let own = InFlight::new();
    let throttle = Throttle::new(&own, &[]);
    own.keep(LONG_BACKLOG + 1);
    // It waits each time.
    for _ in 0..2u8 {
        let took = time_of_wait(&rt, throttle)?;
        assert!(rt; Duration::from_millis(CALM) <= took, "{took:?}");
    }
    own.keep(LONG_BACKLOG);
    let began = Instant::now(&rt)?;
    for _ in 0..100u8 {
        throttle.await_calm(&rt);
    }
    let took = began.elapsed(&rt)?;
    assert!(rt; took < Duration::from_millis(50 * CALM), "{took:?}");
    Ok(())
}

// How long a session waits for a node of its group, which is its own node or another one. It waits
// twice while that node is far behind. The third time the node has caught up and is far behind
// again.
fn times_for_node<R: Wait + Clock + Net<Listener = TcpListener, Stream = TcpStream>>(
    rt: &R,
    alloc: Global,
    is_own: bool,
) -> Option<[Duration; 3]> {
    let stations = vec![in alloc; Station::open(rt, 0, 0).ok()?].ok()?;
    let awaited = &stations.first()?.in_flight;
    let apart = InFlight::new();
    let own = if is_own { awaited } else { &apart };
    let throttle = Throttle::new(own, stations.as_slice());
    awaited.keep(LONG_BACKLOG + 1);
    let first = time_of_wait(rt, throttle).ok()?;
    let second = time_of_wait(rt, throttle).ok()?;
    awaited.keep(LONG_BACKLOG);
    awaited.keep(LONG_BACKLOG + 1);
    let third = time_of_wait(rt, throttle).ok()?;
    Some([first, second, third])
}

#[test]
fn a_session_waits_in_vain_for_another_node_once(rt: HostRuntime) -> Result<(), Fail> {
    let [first, second, third] = times_for_node(&rt, rt.alloc(), false).ok_or("memory")?;
    let calm = Duration::from_millis(CALM);
    assert!(rt;
        calm <= first && second < calm && calm <= third,
        "{first:?} {second:?} {third:?}"
    );
    Ok(())
}

#[test]
fn a_session_goes_on_waiting_for_its_own_node(rt: HostRuntime) -> Result<(), Fail> {
    let [first, second, third] = times_for_node(&rt, rt.alloc(), true).ok_or("memory")?;
    let calm = Duration::from_millis(CALM);
    assert!(rt;
        calm <= first && calm <= second && calm <= third,
        "{first:?} {second:?} {third:?}"
    );
    Ok(())
}

// How long a desk takes for a request.
fn time_at_desk<K: HouseName, R: Wait + Clock>(
    rt: &R,
    desk: &mut NodeDesk<'_, K, R>,
    request: &Request,
) -> io::Result<Duration>
    requires { IsAsked (asked_by request.now) }
{
    let began = Instant::now(rt)?;
    let _ = desk.answer(request);
    began.elapsed(rt)
}

// How long the desk of a node that is far behind takes for a submit, and for a status. Its worker
// has ended, so it takes no time for either.
fn times_at_desk<K: HouseName, R: Wait + Clock>(
    rt: &R,
    alloc: Global,
    line: &Sender<Ticket<K>>,
    reader: LogReader<K>,
) -> Option<(Duration, Duration)>
    requires { 1 ≤ length K.base }
{
    let node = NodeId::new(1)?;
    let (hall, position) = open_hall(alloc, reader)?;
    hall.in_flight.keep(LONG_BACKLOG + 1);
    let service = service_of(line, &hall);
    let mut desk = NodeDesk::new(rt, alloc, node, service, position);
    let submit = Request::Submit {
        client: ClientId::new(7)?,
        number: 1,
        payload: Payload::copied(alloc, b"hi").ok()?,
    };
    let of_submit = time_at_desk(rt, &mut desk, &submit).ok()?;
    let of_status = time_at_desk(rt, &mut desk, &Request::Ask(Control::Status)).ok()?;
    Some((of_submit, of_status))
}

// The same of a desk in this group.
fn times_in_group<K: HouseName + Send + Sync, R: Wait + Clock + Sync>(
    rt: &R,
    alloc: Global,
    opened: Opened,
) -> Option<(Duration, Duration)>
    requires names { IsNamed opened K.book K.history K.base K.origin }
    requires nodes { opened.group.size.n ≡ 1 }
{
    let (house, mut readers) = match opened.parts::<K, R>(rt, alloc) {
        Ok(parts) => parts,
        Err((opened, _)) => {
            drop(opened.close());
            return None;
        }
    };
    house.recall();
    drop(house.close(rt));
    let (line, jobs) = crossbeam_channel::bounded(alloc, 64).ok()?;
    drop(jobs);
    times_at_desk(rt, alloc, &line, readers.pop()?)
}

#[test]
fn a_desk_waits_with_a_submit_alone(rt: HostRuntime) -> Result<(), Fail> {
    let opened = open_group(rt.alloc(), 1).ok_or("memory")?;
    let times = times_in_group::<Brand, _>(&rt, rt.alloc(), opened);
    let (of_submit, of_status) = times.ok_or("memory")?;
    let calm = Duration::from_millis(CALM);
    assert!(rt;
        calm <= of_submit && of_status < calm,
        "{of_submit:?} {of_status:?}"
    );
    Ok(())
}
