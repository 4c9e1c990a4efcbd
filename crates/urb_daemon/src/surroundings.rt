//! What an errand runs in: the streams of a terminal, and the sockets and the clock of a runtime.

use std::alloc::{Allocator, Global};
use std::fmt::Display;
use std::io;
use std::io::Lines;
use std::net::{Net, SocketAddr, TcpListener, TcpStream};
use std::os::unix::net as unix;
use std::os::unix::net::UnixStream;
use std::time::{Clock, Duration};

/// A terminal and a runtime as one. Each call goes to one of them.
#[derive(Drop)]
pub(crate) struct Surroundings<'a, R, T> {
    pub(crate) rt: &'a R,
    pub(crate) terminal: &'a T,
}

impl<R, T: Print> Print for Surroundings<'_, R, T> {
    fn print<D: Display + Drop>(&self, value: D) -> io::Result<()> {
        self.terminal.print(value)
    }

    fn println<D: Display + Drop>(&self, value: D) -> io::Result<()> {
        self.terminal.println(value)
    }

    fn write_all(&self, bytes: &[u8]) -> io::Result<()> {
        self.terminal.write_all(bytes)
    }
}

impl<R, T: Eprint> Eprint for Surroundings<'_, R, T> {
    fn eprint<D: Display + Drop>(&self, value: D) -> io::Result<()> {
        self.terminal.eprint(value)
    }

    fn eprintln<D: Display + Drop>(&self, value: D) -> io::Result<()> {
        self.terminal.eprintln(value)
    }
}

impl<R, T: AllocGlobal> Alloc for Surroundings<'_, R, T> {
    type A = Global;

    fn alloc(&self) -> Global {
        self.terminal.alloc()
    }
}

impl<R, T: Input> Input for Surroundings<'_, R, T> {
    type Reader = <T as Input>::Reader;

    fn read_line<A: Allocator + Clone>(&self, buf: &mut String<A>) -> io::Result<usize> {
        self.terminal.read_line(buf)
    }

    fn lines<A: Allocator>(&self, alloc: A) -> Lines<<T as Input>::Reader, A> {
        self.terminal.lines(alloc)
    }

    fn reader(&self) -> <T as Input>::Reader {
        self.terminal.reader()
    }
}

impl<R: Net<Listener = TcpListener, Stream = TcpStream>, T> Net for Surroundings<'_, R, T> {
    type Stream = TcpStream;

    type Listener = TcpListener;

    fn bind(&self, addr: SocketAddr) -> io::Result<TcpListener> {
        self.rt.bind(addr)
    }

    fn connect(&self, addr: SocketAddr) -> io::Result<TcpStream> {
        self.rt.connect(addr)
    }

    fn connect_unix(&self, addr: &unix::SocketAddr) -> io::Result<UnixStream> {
        self.rt.connect_unix(addr)
    }
}

impl<R: Clock, T> Clock for Surroundings<'_, R, T> {
    fn monotonic(&self) -> io::Result<Duration> {
        self.rt.monotonic()
    }

    fn since_1970(&self) -> io::Result<Duration> {
        self.rt.since_1970()
    }

    fn sleep(&self, duration: Duration) {
        self.rt.sleep(duration)
    }
}
