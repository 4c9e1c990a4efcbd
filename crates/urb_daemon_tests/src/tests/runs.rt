//! Runs of a group over stores in memory, from their opening to the return of the stores.

use std::alloc::Global;
use std::io;
use std::io::Read;
use std::net::{Net, TcpListener, TcpStream};
use std::test::Fail;
use urb_cli::submit_at;
use urb_daemon::{
    Console, Host, NetworkFault, Port, ServeFault, SocketCause, fault_of_serve, report_end,
    run_ahead,
};
use urb_group::{MemStable, Record, Stable, StoreFault};
use urb_names::{ClientId, Message, Name, NodeId, Refusal, Rule};
use urb_options::{Fault, NodeAddress, ServeOptions, SubmitOptions};
use urb_terminal::Terminal;
use urb_turn::Silent;

/// A store in memory that answers `NoMemory` when it is asked for its records.
#[derive(Drop)]
struct Refusing {
    store: MemStable,
}

impl Stable for Refusing {
    type Alloc = Global;

    ghost certain = { λ s. ⟦<MemStable as Stable>⟧.certain s.store };

    ghost doubt = { λ s. ⟦<MemStable as Stable>⟧.doubt s.store };

    ghost is_doubtful = { λ s. ⟦<MemStable as Stable>⟧.is_doubtful s.store };

    ghost place = { λ s. ⟦<MemStable as Stable>⟧.place s.store };

    ghost failures = { λ s. ⟦<MemStable as Stable>⟧.failures s.store };

    ghost is_clean = { λ s. ⟦<MemStable as Stable>⟧.is_clean s.store };

    ghost is_honest = { λ s. ⟦<MemStable as Stable>⟧.is_honest s.store };

    ghost is_shut = { λ s. ⟦<MemStable as Stable>⟧.is_shut s.store };

    ghost leaves_only = { λ s. ⟦<MemStable as Stable>⟧.leaves_only s.store };

    ghost stores = { λ s. ⟦<MemStable as Stable>⟧.stores s.store };

    ghost answers = { λ s. ⟦<MemStable as Stable>⟧.answers s.store };

    ghost ahead = { λ s. ⟦<MemStable as Stable>⟧.ahead s.store };

    ghost base = { λ s. ⟦<MemStable as Stable>⟧.base s.store };

    ghost can_hold = { λ s. ⟦<MemStable as Stable>⟧.can_hold s.store };

    fn next(&self) -> u32 {
        self.store.next()
    }

    fn doubtful(&self) -> bool {
        self.store.doubtful()
    }

    fn store(&mut self, pos: u32, entry: &Record) -> Result<(), StoreFault> {
        self.store.store(pos, entry)
    }

    fn store_all(&mut self, pos: u32, entries: &[Record]) -> Result<(), StoreFault> {
        self.store.store_all(pos, entries)
    }

    fn retrieve(&mut self, _alloc: Global) -> Result<Vec<Record>, StoreFault> {
        Err(StoreFault::NoMemory)
    }

    fn store_ahead(&mut self, records: &mut Vec<Record>) -> Result<(), StoreFault> {
        self.store.store_ahead(records)
    }
}

// A store that holds one message of this node.
fn store_of(alloc: Global, number: u8, text: u8) -> Option<MemStable> {
    let sender = NodeId::new(number)?;
    let payload = Vec::from_elem(alloc, text, 1).ok()?;
    let message = Message::new(alloc, ClientId::new(7)?, 1, payload).ok()?;
    let mut store = MemStable::new(alloc);
    let record = Record::Pend(Name { sender, seq: 1 }, message);
    store.store(1, &record).ok()?;
    Some(store)
}

// A store for each of these numbers, with a message of the node of that number. No two messages are
// the same.
fn stores_of(alloc: Global, numbers: &[u8]) -> Option<Vec<MemStable>> {
    let mut stores = Vec::new(alloc);
    let mut text = b'a';
    for number in numbers {
        stores.push(store_of(alloc, *number, text)?).ok()?;
        text = text.wrapping_add(1);
    }
    Some(stores)
}

// The node of the first message in a store.
fn first_in(alloc: Global, store: &mut MemStable) -> Option<u8> {
    let records = store.retrieve(alloc).ok()?;
    Some(records.first()?.name().sender.number())
}

// Whether the first messages in these stores belong to these nodes, in this order.
fn are_of(alloc: Global, stores: &mut [MemStable], numbers: &[u8]) -> bool {
    let mut are = stores.len() == numbers.len();
    for (store, number) in stores.iter_mut().zip(numbers) {
        are = are && first_in(alloc, store) == Some(*number);
    }
    are
}

/// The result of a run: its stores, how it ended, and what it printed.
#[derive(Drop)]
struct Ran<J: Drop> {
    stores: Vec<J>,
    ended: Result<u64, ServeFault>,
    shown: Vec<u8>,
}

/// The conditions of a run: whether its output can be written, and the milliseconds between two
/// ticks. Also whether a client submits at node 1 before the input ends.
#[derive(Clone, Copy)]
struct Course {
    open: bool,
    millis: u32,
    submits: bool,
}

/// An input that ends at its first read. If it has a port, a client submits a message there before
/// that.
#[derive(Drop)]
struct Client<'a, R: Net<Listener = TcpListener, Stream = TcpStream>> {
    rt: &'a R,
    alloc: Global,
    port: Option<u16>,
}

impl<'a, R: Net<Listener = TcpListener, Stream = TcpStream>> Read for Client<'a, R> {
    fn read(&mut self, _buf: &mut [u8]) -> io::Result<usize> {
        if let Some(port) = self.port
            && 0 < port
        {
            let submitting = SubmitOptions {
                at: NodeAddress::Port(port),
                client: 7,
                number: 1,
                text: "hi",
            };
            let _ = submit_at(self.rt, self.alloc, submitting);
        }
        Ok(0)
    }
}

// A run over these stores, at the ports above this base.
fn run_at<J: Stable<Alloc = Global> + Send + Drop, R>(
    rt: &R,
    alloc: Global,
    stores: Vec<J>,
    base: u16,
    course: Course,
) -> Option<Ran<J>>
where
    R: Host + Net<Listener = TcpListener, Stream = TcpStream>,
{
    let nodes = u8::try_from(stores.len()).ok()?;
    let serving = ServeOptions::new(nodes, 100, ".", base, course.millis)?;
    if stores.len() != usize::from(serving.nodes) {
        return None;
    }
    let port = if course.submits {
        Some(serving.base + 11)
    } else {
        None
    };
    let terminal = Terminal::new(alloc, &[], b"", course.open);
    let mut output = io::writer(&terminal);
    let mut client = Client { rt, alloc, port };
    let mut console = Console::new(&mut output, &mut client);
    let (stores, ended) = run_ahead(rt, alloc, serving, stores, &Silent, &mut console);
    drop(console);
    Some(Ran {
        stores,
        ended,
        shown: terminal.into_shown(0).output,
    })
}

// The same at ports that are free.
fn run<J: Stable<Alloc = Global> + Send + Drop, R>(
    rt: &R,
    alloc: Global,
    stores: Vec<J>,
    course: Course,
) -> Option<Ran<J>>
where
    R: Host + Net<Listener = TcpListener, Stream = TcpStream>,
{
    let mut stores = stores;
    for base in [21_310, 24_870, 28_430, 31_090] {
        let ran = run_at(rt, alloc, stores, base, course)?;
        if !matches!(ran.ended, Err(ServeFault::Network(_))) {
            return Some(ran);
        }
        stores = ran.stores;
    }
    None
}

// The fault that the end of a run becomes, if it is one.
fn fault_of_end(ended: Result<u64, ServeFault>) -> Option<Fault> {
    match ended {
        Ok(_) => None,
        Err(why) => Some(fault_of_serve(why)),
    }
}

#[test]
fn the_stores_of_a_run_come_back_in_their_order(rt: HostRuntime) -> Result<(), Fail> {
    let alloc = rt.alloc();
    for (numbers, open, shown, fault) in [
        ([1u8].as_slice(), true, b"open 1\n".as_slice(), None),
        (&[1, 2, 3], true, b"open 3\n", None),
        (&[1, 2, 3], false, b"", Some(Fault::Write)),
        // Two nodes hold different messages under the name 1.1.
        (&[1, 1], true, b"", Some(Fault::Refused(14, 0))),
    ] {
        let stores = stores_of(alloc, numbers).ok_or("memory")?;
        let course = Course {
            open,
            millis: 20,
            submits: false,
        };
        let mut ran = run(&rt, alloc, stores, course).ok_or("memory")?;
        assert_eq!(rt; fault_of_end(ran.ended), fault);
        assert_eq!(rt; ran.shown.as_slice(), shown);
        assert!(rt; are_of(alloc, &mut ran.stores, numbers));
    }
    Ok(())
}

#[test]
fn a_run_to_which_memory_is_refused_tells_it(rt: HostRuntime) -> Result<(), Fail> {
    let alloc = rt.alloc();
    let mut stores = Vec::new(alloc);
    stores.push(Refusing {
        store: MemStable::new(alloc),
    })?;
    let course = Course {
        open: true,
        millis: 20,
        submits: false,
    };
    let ran = run(&rt, alloc, stores, course).ok_or("memory")?;
    assert_eq!(rt; ran.ended, Err(ServeFault::Unopened(Refusal::NoMemory)));
    assert_eq!(rt; ran.stores.len(), 1);
    assert_eq!(rt; ran.shown.len(), 0);
    Ok(())
}

// If no tick comes, the only events of a single node are a submit and its store.
#[test]
fn a_run_ends_with_the_count_of_its_events(rt: HostRuntime) -> Result<(), Fail> {
    let alloc = rt.alloc();
    for (submits, events) in [(false, 0), (true, 2)] {
        let mut stores = Vec::new(alloc);
        stores.push(MemStable::new(alloc))?;
        let course = Course {
            open: true,
            millis: 60_000,
            submits,
        };
        let ran = run(&rt, alloc, stores, course).ok_or("memory")?;
        assert_eq!(rt; ran.ended, Ok(events));
    }
    Ok(())
}

#[test]
fn an_end_is_told(rt: HostRuntime) -> Result<(), Fail> {
    let (one, two) = (NodeId::new(1).unwrap(), NodeId::new(2).unwrap());
    let misfit = Refusal::Inconsistent {
        rule: Rule::C,
        node: two,
        name: Name {
            sender: one,
            seq: 7,
        },
    };
    for (ended, open, status, output, errors) in [
        (Ok(7), true, 0, b"closed 7\n".as_slice(), b"".as_slice()),
        (Ok(7), false, 1, b"", b"urbd: write failed\n"),
        (
            Err(ServeFault::Network(NetworkFault::InUse(Port::Tcp(7411)))),
            true,
            1,
            b"",
            b"urbd: network failed: TCP port 7411 is in use\n",
        ),
        (
            Err(ServeFault::Network(NetworkFault::NotAllowed(Port::Udp(1025)))),
            true,
            1,
            b"",
            b"urbd: network failed: the program may not use UDP port 1025\n",
        ),
        (
            Err(ServeFault::Network(NetworkFault::Socket(2, SocketCause::InUse))),
            true,
            1,
            b"",
            b"urbd: network failed: socket node-2.sock: a program that runs uses it\n",
        ),
        (
            Err(ServeFault::Network(NetworkFault::NoSocket(29))),
            true,
            1,
            b"",
            b"urbd: network failed: the system gives no further socket; the group needs 29 \
descriptors (ulimit -n)\n",
        ),
        (
            Err(ServeFault::NoMemory),
            true,
            1,
            b"",
            b"urbd: no memory\n",
        ),
        (
            Err(ServeFault::Untold),
            false,
            1,
            b"",
            b"urbd: write failed\n",
        ),
        (
            Err(ServeFault::Unopened(Refusal::BadRow(3))),
            true,
            1,
            b"",
            b"urbd: refused 17 3: row 3 is no record\n",
        ),
        (
            Err(ServeFault::Unopened(misfit)),
            true,
            1,
            b"",
            b"urbd: refused 14 0: rule c, node 2, name 1.7 (urbdctl verify says more)\n",
        ),
    ] {
        let terminal = Terminal::new(rt.alloc(), &[], b"", open);
        let told = report_end(&mut io::writer(&terminal), &terminal, ended);
        let shown = terminal.into_shown(told);
        assert_eq!(rt; shown.status, status);
        assert_eq!(rt; shown.output.as_slice(), output);
        assert_eq!(rt; shown.errors.as_slice(), errors);
    }
    Ok(())
}
