//! Stations: on which addresses and ports they listen, and how they wake threads that wait.

use std::net::{Ipv4Addr, Net, TcpListener, TcpStream, UdpSocket};
use std::test::Fail;
use std::time::Duration;
use urb_link::Station;

// Whether a station's ports are those of its sockets, and these listen only on 127.0.0.1. On
// another address of this machine both ports are free.
fn is_at_loopback_alone<R: Net<Listener = TcpListener, Stream = TcpStream>>(
    rt: &R,
    station: &Station,
) -> Option<bool> {
    let udp = station.udp.local_addr().ok()?;
    let tcp = station.tcp.as_ref()?.local_addr().ok()?;
    let other = Ipv4Addr::new(127, 0, 0, 2);
    Some(
        udp.port() == station.udp_port
            && tcp.port() == station.tcp_port
            && UdpSocket::bind(rt, (other, station.udp_port)).is_ok()
            && TcpListener::bind(rt, (other, station.tcp_port)).is_ok(),
    )
}

// Whether a station has woken a receiver with an empty datagram, and a listener with a connection.
fn has_woken(station: &Station) -> Option<bool> {
    let patience = Some(Duration::from_millis(10_000));
    station.udp.set_read_timeout(patience).ok()?;
    let mut room = [0u8; 8];
    let (length, _from) = station.udp.recv_from(&mut room).ok()?;
    station.tcp.as_ref()?.accept().ok()?;
    Some(length == 0)
}

#[test]
fn a_station_listens_at_loopback_alone(rt: HostRuntime) -> Result<(), Fail> {
    let station = Station::open(&rt, 0, 0)?;
    assert!(rt; station.udp_port != 0 && station.tcp_port != 0);
    assert_eq!(rt; is_at_loopback_alone(&rt, &station), Some(true));
    // As long as the station exists, neither of its ports can be opened again.
    assert!(rt; Station::open(&rt, station.udp_port, 0).is_err());
    assert!(rt; Station::open(&rt, 0, station.tcp_port).is_err());
    let (udp_port, tcp_port) = (station.udp_port, station.tcp_port);
    drop(station);
    let again = Station::open(&rt, udp_port, tcp_port)?;
    assert_eq!(rt; (again.udp_port, again.tcp_port), (udp_port, tcp_port));
    Ok(())
}

#[test]
fn a_station_wakes_what_waits(rt: HostRuntime) -> Result<(), Fail> {
    let station = Station::open(&rt, 0, 0)?;
    station.wake(&rt);
    assert_eq!(rt; has_woken(&station), Some(true));
    Ok(())
}
