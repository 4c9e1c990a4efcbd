//! The sockets of a group: a station for each node, and the link to all of them.

ghost use Rattle.std.specs.Prelude.{◌≡◌, ◌≤◌, ◌<◌, ◌+◌, ◌-◌, ◌*◌, ◌/◌, IfOk};
ghost use Rattle.std.specs.Prelude.{◌⊎◌, ◌&&◌, None, is_some, MatchOption};
ghost use Rattle.std.specs.Prelude.{map, vec_len};
ghost use Rattle.urb_options.specs.declared.limits.TheConstants.{MAX_BASE_PORT};
ghost use Rattle.urb_names.specs.declared.limits.TheConstants.{MAX_NODES};
ghost use Rattle.urb_desk.specs.declared.connections.TheConstants.{LEAST_CONNECTIONS};
ghost use Rattle.urb_daemon.specs.ClientService.{FitService, limits_asked};
ghost use Rattle.urb_daemon.specs.Doors.{HasDoors, HaveDoors};

use crate::network_fault::{
    NetworkFault, Port, count_all_descriptors, fault_of_socket, judge_socket,
};
use crate::socket_files::{open_socket, remove_sockets};
use std::alloc::Global;
use std::net::{Ipv4Addr, Net, TcpListener, TcpStream, UdpSocket};
use std::rt::Files;
use urb_desk::{ClientLimits, IDLE_MINUTES, LEAST_CONNECTIONS, MOST_CONNECTIONS};
use urb_link::{Station, UdpLink};
use urb_options::{
    CLIENT_PORT_OFFSET, DoorOptions, MAX_CONNECTIONS, MIN_CONNECTIONS, STANDARD_IDLE_MINUTES,
    ServeOptions, ServiceOptions,
};

// The range of the option is that of the nodes.
const _: () = prove!(MIN_CONNECTIONS as usize == LEAST_CONNECTIONS);

const _: () = prove!(MAX_CONNECTIONS as usize == MOST_CONNECTIONS);

// A node that nobody configured waits as long as the option's standard value says.
const _: () = prove!(STANDARD_IDLE_MINUTES as u32 == IDLE_MINUTES);

/// What connects the nodes of a group with each other and with their clients.
#[derive(Drop)]
pub struct Network {
    /// The stations of the nodes, in their order.
    pub stations: Vec<Station>,
    /// The link to these stations.
    pub link: UdpLink,
    /// Milliseconds from one tick of a node to the next.
    pub every: u32,
    /// How many clients each node serves at a time, how long they may take, and whether they may
    /// crash it.
    pub limits: ClientLimits,
}

// The port that a station couldn't open: its UDP port, if that still can't be opened or there is no
// other, or else its TCP port.
fn find_port<R: Net<Listener = TcpListener, Stream = TcpStream>>(
    rt: &R,
    udp_port: u16,
    tcp_port: Option<u16>,
) -> Port {
    match (
        UdpSocket::bind(rt, (Ipv4Addr::LOCALHOST, udp_port)),
        tcp_port,
    ) {
        (Ok(_), Some(port)) => Port::Tcp(port),
        _ => Port::Udp(udp_port),
    }
}

// How many descriptors the group needs.
fn count_needed(serving: &ServeOptions<'_>) -> u16 {
    count_all_descriptors(serving.nodes, has_second_door(&serving.doors))
}

// Whether a node takes clients over TCP and over a Unix socket.
fn has_second_door(doors: &DoorOptions<'_>) -> bool
    ensures { result ≡ (doors.now.takes_tcp && is_some doors.now.sockets) }
{
    doors.takes_tcp && doors.sockets.is_some()
}

// Opens the ports of the station of the node with this number.
fn open_ports<R: Net<Listener = TcpListener, Stream = TcpStream>>(
    rt: &R,
    serving: ServeOptions<'_>,
    node: u8,
) -> Result<Station, NetworkFault>
    requires { node ≤ MAX_NODES }
    ensures doors { IfOk result (λ made.
        (is_some made.tcp ≡ serving.entry.doors.takes_tcp) × (made.socket ≡ None)) }
{
    let udp_port = serving.base + u16::from(node);
    let tcp_port = if serving.doors.takes_tcp {
        Some(udp_port + CLIENT_PORT_OFFSET)
    } else {
        None
    };
    match Station::open_ports(rt, udp_port, tcp_port) {
        Ok(station) => Ok(station),
        Err(error) => {
            let port = find_port(rt, udp_port, tcp_port);
            Err(judge_socket(port, count_needed(&serving), error.kind()))
        }
    }
}

// Opens the station of the node with this number: its ports, and then its Unix socket, if it has
// one.
fn open_station<R: Files + Net<Listener = TcpListener, Stream = TcpStream>>(
    rt: &R,
    alloc: Global,
    serving: ServeOptions<'_>,
    node: u8,
) -> Result<Station, NetworkFault>
    requires { node ≤ MAX_NODES }
    ensures doors { IfOk result (HasDoors serving.entry.doors) }
{
    let mut station = open_ports(rt, serving, node)?;
    if let Some(sockets) = serving.doors.sockets {
        match open_socket(rt, alloc, sockets, node) {
            Ok(listener) => station.socket = Some(listener),
            Err(cause) => return Err(fault_of_socket(node, cause)),
        }
    }
    Ok(station)
}

/// Removes the Unix sockets of this many nodes, if they have any. Call it while they are open.
pub(crate) fn close_doors<R: Files>(rt: &R, alloc: Global, doors: DoorOptions<'_>, nodes: u8)
    requires { nodes ≤ MAX_NODES }
{
    if let Some(sockets) = doors.sockets {
        remove_sockets(rt, alloc, sockets, nodes);
    }
}

// Opens the stations of the nodes, in their order. After a fault it removes the sockets that it
// made.
fn open_stations<R: Files + Net<Listener = TcpListener, Stream = TcpStream>>(
    rt: &R,
    alloc: Global,
    serving: ServeOptions<'_>,
) -> Result<Vec<Station>, NetworkFault>
    ensures count { IfOk result (λ stations. vec_len stations ≡ serving.entry.nodes) }
    ensures doors { IfOk result (λ stations. HaveDoors serving.entry.doors stations.items) }
{
    let nodes = serving.nodes;
    let mut stations = Vec::with_capacity(alloc, usize::from(nodes))?;
    for place in 0..nodes {
        match open_station(rt, alloc, serving, place + 1) {
            Ok(station) => stations.push_reserved(station),
            Err(fault) => {
                close_doors(rt, alloc, serving.doors, place);
                return Err(fault);
            }
        }
    }
    Ok(stations)
}

/// Opens a link to these stations, in their order. Their group needs that many descriptors.
pub fn open_link<R: Net<Listener = TcpListener, Stream = TcpStream>>(
    rt: &R,
    alloc: Global,
    needed: u16,
    stations: &[Station],
) -> Result<UdpLink, NetworkFault>
    ensures ports { IfOk result (λ link. link.ports.items ≡ map (λ s. s.udp_port) stations.now) }
{
    let mut ports = Vec::with_capacity(alloc, stations.len())?;
    for station in stations {
        ports.push_reserved(station.udp_port);
    }
    match UdpSocket::bind(rt, (Ipv4Addr::LOCALHOST, 0)) {
        Ok(socket) => Ok(UdpLink::new(socket, ports)),
        Err(_) => Err(NetworkFault::NoSocket(needed)),
    }
}

/// Opens as many descriptors as it can, up to this number, for a group that needs that many.
/// There has to be at least one.
pub(crate) fn open_spare_descriptors<R: Net<Listener = TcpListener, Stream = TcpStream>>(
    rt: &R,
    alloc: Global,
    needed: u16,
    most: usize,
) -> Result<Vec<UdpSocket>, NetworkFault>
    ensures count { IfOk result (λ spare. vec_len spare ≤ most) }
{
    let mut spare = Vec::with_capacity(alloc, most)?;
    let Ok(first) = UdpSocket::bind(rt, (Ipv4Addr::LOCALHOST, 0)) else {
        return Err(NetworkFault::NoSocket(needed));
    };
    for _i in 0..most {
        match first.try_clone() {
            Ok(socket) => spare.push_reserved(socket),
            Err(_) => break,
        }
    }
    Ok(spare)
}

// How many connections each of `nodes` nodes may serve if so many descriptors are left: as many as
// were asked for, or fewer. A stop takes one to wake the nodes, and they share the others. A node
// takes one for each connection, and one for a client that it refuses. `None` if that is too few
// for the least number of connections.
fn connections_for(spare: usize, nodes: u8, asked: usize) -> Option<usize>
    requires { (0 < nodes) × (LEAST_CONNECTIONS ≤ asked) }
    ensures { MatchOption result
        ((spare - 1) / nodes ≤ LEAST_CONNECTIONS)
        (λ count. (LEAST_CONNECTIONS ≤ count) × (count ≤ asked)
        × (count < (spare - 1) / nodes)
        × ((count ≡ asked) ⊎ (count + 1 ≡ (spare - 1) / nodes))) }
{
    let share = spare.saturating_sub(1) / usize::from(nodes);
    if share <= LEAST_CONNECTIONS {
        return None;
    }
    if asked < share {
        return Some(asked);
    }
    Some(share - 1)
}

// Counts how many connections each node may serve, as many as were asked for at most, by the
// descriptors that the program may still open. A second door of a node takes one more, for a client
// that is refused there. So no client that gets a session waits for a descriptor, and a stop can
// wake everybody.
fn count_connections<R: Net<Listener = TcpListener, Stream = TcpStream>>(
    rt: &R,
    alloc: Global,
    serving: ServeOptions<'_>,
) -> Result<usize, NetworkFault>
    ensures count { IfOk result (λ count. (LEAST_CONNECTIONS ≤ count)
        × (count ≤ serving.entry.service.connections)) }
{
    let (needed, nodes) = (count_needed(&serving), serving.nodes);
    let asked = usize::from(serving.service.connections);
    let refused = if has_second_door(&serving.doors) {
        usize::from(nodes)
    } else {
        0
    };
    let most = (asked + 1) * usize::from(nodes) + 1;
    let spare = open_spare_descriptors(rt, alloc, needed, most + refused)?;
    match connections_for(spare.len().saturating_sub(refused), nodes, asked) {
        Some(count) => Ok(count),
        None => Err(NetworkFault::NoSocket(needed)),
    }
}

// The limits that these options ask for, with so many connections.
fn limits_asked(service: ServiceOptions, connections: usize) -> ClientLimits
    ensures { result ≡ limits_asked service connections }
{
    ClientLimits::new(
        connections,
        u32::from(service.idle_minutes),
        service.may_crash,
    )
}

// Opens the link to these stations of the group, and counts the connections that each may serve.
fn open_link_and_count<R: Net<Listener = TcpListener, Stream = TcpStream>>(
    rt: &R,
    alloc: Global,
    serving: ServeOptions<'_>,
    stations: &[Station],
) -> Result<(UdpLink, usize), NetworkFault>
    ensures ports { IfOk result
        (λ it. it.0.ports.items ≡ map (λ s. s.udp_port) stations.now) }
    ensures count { IfOk result (λ it. (LEAST_CONNECTIONS ≤ it.1)
        × (it.1 ≤ serving.entry.service.connections)) }
{
    let link = open_link(rt, alloc, count_needed(&serving), stations)?;
    let connections = count_connections(rt, alloc, serving)?;
    Ok((link, connections))
}

/// Opens the stations of the nodes and the link to them. Node P's station has the UDP port
/// `base + P`, and the TCP port that is `CLIENT_PORT_OFFSET` above it, unless the group takes no
/// clients over TCP. If it takes them at Unix sockets, node P's is `node-P.sock` in their folder. A
/// port or a socket that isn't available is a fault. If there are few descriptors, each node serves
/// fewer clients; too few for `LEAST_CONNECTIONS` are a fault. The first fault ends the call. After
/// a fault nothing stays open, and no socket that was made here stays.
pub fn open_network<R: Files + Net<Listener = TcpListener, Stream = TcpStream>>(
    rt: &R,
    alloc: Global,
    serving: ServeOptions<'_>,
) -> Result<Network, NetworkFault>
    ensures count { IfOk result (λ it. vec_len it.stations ≡ serving.entry.nodes) }
    // Each node takes its clients where the options say.
    ensures doors { IfOk result (λ it. HaveDoors serving.entry.doors it.stations.items) }
    // The link's ports are those of the stations, in their order.
    ensures ports { IfOk result
        (λ it. it.link.ports.items ≡ map (λ s. s.udp_port) it.stations.items) }
    // The nodes tick as often as the options say.
    ensures ticks { IfOk result (λ it. it.every ≡ serving.entry.every) }
    // The nodes serve their clients as the options say.
    ensures limits { IfOk result (λ it. FitService serving.entry.service it.limits) }
{
    let stations = open_stations(rt, alloc, serving)?;
    match open_link_and_count(rt, alloc, serving, stations.as_slice()) {
        Ok((link, connections)) => Ok(Network {
            stations,
            link,
            every: serving.every,
            limits: limits_asked(serving.service, connections),
        }),
        Err(fault) => {
            close_doors(rt, alloc, serving.doors, serving.nodes);
            Err(fault)
        }
    }
}
