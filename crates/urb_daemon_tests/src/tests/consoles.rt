//! The console: it says once that a group is open, and reads its input to the end.

use std::cell::Cell;
use std::io;
use std::io::{ErrorKind, IsTerminal, Read};
use std::test::Fail;
use urb_daemon::{Console, PromptedInput};
use urb_terminal::Terminal;
use urb_worker::Watch;

/// An input with `left` bytes left. Each comes alone, after a read that was interrupted. Then the
/// input ends, or fails.
#[derive(Drop)]
struct Typed<'a> {
    left: &'a Cell<u32>,
    interrupted: &'a Cell<bool>,
    ends: bool,
}

impl Read for Typed<'_> {
    fn read(&mut self, buf: &mut [u8]) -> io::Result<usize> {
        self.interrupted.set(!self.interrupted.get());
        if self.interrupted.get() {
            return Err(io::Error::from(ErrorKind::Interrupted));
        }
        let left = self.left.get();
        if left == 0 {
            return if self.ends {
                Ok(0)
            } else {
                Err(io::Error::from(ErrorKind::Other))
            };
        }
        self.left.set(left - 1);
        match buf.first_mut() {
            Some(place) => {
                *place = b'x';
                Ok(1)
            }
            None => Ok(0),
        }
    }
}

#[test]
fn a_console_tells_once_and_reads_to_the_end(rt: HostRuntime) -> Result<(), Fail> {
    for (open, ends, line, left) in [
        (true, true, b"open 0\n".as_slice(), 0),
        (true, false, b"open 0\n", 0),
        (false, true, b"", 300),
    ] {
        let terminal = Terminal::new(rt.alloc(), &[], b"", open);
        let typed = Cell::new(300u32);
        let interrupted = Cell::new(false);
        let mut input = Typed {
            left: &typed,
            interrupted: &interrupted,
            ends,
        };
        let mut output = io::writer(&terminal);
        let mut console = Console::new(&mut output, &mut input);
        assert!(rt; !console.is_told());
        console.watch(&[]);
        assert_eq!(rt; console.is_told(), open);
        assert_eq!(rt; typed.get(), left);
        drop(console);
        let shown = terminal.into_shown(0);
        assert!(rt; shown.is(0, line, b"", b""));
    }
    Ok(())
}

/// An input without a byte, which is a terminal or isn't.
#[derive(Drop)]
struct Empty {
    is_terminal: bool,
}

impl Read for Empty {
    fn read(&mut self, _buf: &mut [u8]) -> io::Result<usize> {
        Ok(0)
    }
}

impl IsTerminal for Empty {
    fn is_terminal(&self) -> bool {
        self.is_terminal
    }
}

#[test]
fn a_terminal_shows_how_to_stop(rt: HostRuntime) -> Result<(), Fail> {
    for (is_terminal, told) in [
        (
            true,
            b"urbd: press Ctrl-D to stop\nurbd: stopping: the sessions of clients end\n".as_slice(),
        ),
        (false, b""),
    ] {
        let terminal = Terminal::new(rt.alloc(), &[], b"", true);
        let mut input = PromptedInput::new(Empty { is_terminal }, &terminal);
        let mut output = io::writer(&terminal);
        let mut console = Console::new(&mut output, &mut input);
        console.watch(&[]);
        drop(console);
        let shown = terminal.into_shown(0);
        assert!(rt; shown.is(0, b"open 0\n", told, told));
    }
    Ok(())
}
