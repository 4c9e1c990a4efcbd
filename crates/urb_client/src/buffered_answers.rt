//! A buffer of answers, which sends them together before a read that may wait.
//!
//! It keeps answers while more input is already in memory.

ghost use Rattle.std.specs.Io.{WritesAtMost};

use std::alloc::Global;
use std::cell::{Cell, RefCell};
use std::io;
use std::io::{BufReader, BufWriter, ErrorKind, Read, Write};

/// The answers that have not been sent yet. A flush of the writer leaves them here. They are sent
/// when the reader has no more bytes in memory, or by `send_all`. So if many requests come
/// together, one write sends all their answers; and a client that waits for an answer gets it.
pub struct BufferedAnswers<W: Write + Drop> {
    waiting: RefCell<BufWriter<W>>,
    failed: Cell<bool>,
}

impl<W: Write + Drop> Drop for BufferedAnswers<W> {
    fn drop(self) {
        let BufferedAnswers {
            waiting: _,
            failed: _,
        } = self;
    }
}

impl<W: Write + Drop> BufferedAnswers<W> {
    /// Makes a buffer that sends answers to this writer, at most 8,192 bytes in one write. An error
    /// means that an allocation was refused.
    pub fn new(alloc: Global, writer: W) -> io::Result<BufferedAnswers<W>> {
        Ok(BufferedAnswers {
            waiting: RefCell::new(BufWriter::new(alloc, writer)?),
            failed: Cell::new(false),
        })
    }

    /// Returns a reader of this input, which sends the answers before each read. It reads up to
    /// 8,192 bytes ahead. An error means that an allocation was refused.
    pub fn reader<'a, R: Read + Drop>(
        &'a self,
        alloc: Global,
        input: R,
    ) -> io::Result<BufReader<FlushingInput<'a, R, W>>> {
        let input = FlushingInput {
            input,
            answers: self,
        };
        BufReader::new(alloc, input)
    }

    /// Returns the writer that takes the answers.
    pub fn writer(&self) -> BufferedWriter<'_, W> {
        BufferedWriter { answers: self }
    }

    /// Sends all answers. An error means that some were not sent.
    pub fn send_all(&self) -> io::Result<()> {
        let gone = match self.waiting.try_borrow_mut() {
            Ok(mut waiting) => waiting.flush(),
            Err(_) => Err(io::Error::from(ErrorKind::Other)),
        };
        if gone.is_err() {
            self.failed.set(true);
        }
        gone
    }

    /// Whether some answers could not be sent. If a read had to send them, that read has failed
    /// too.
    pub fn has_failed(&self) -> bool {
        self.failed.get()
    }

    // Appends bytes to those that wait.
    fn put(&self, bytes: &[u8]) -> io::Result<usize>
        ensures { WritesAtMost result bytes.now }
    {
        let put = match self.waiting.try_borrow_mut() {
            Ok(mut waiting) => waiting.write(bytes),
            Err(_) => Err(io::Error::from(ErrorKind::Other)),
        };
        if put.is_err() {
            self.failed.set(true);
        }
        put
    }
}

/// An input that sends the answers before each of its reads.
pub struct FlushingInput<'a, R: Read + Drop, W: Write + Drop> {
    input: R,
    answers: &'a BufferedAnswers<W>,
}

impl<R: Read + Drop, W: Write + Drop> Drop for FlushingInput<'_, R, W> {
    fn drop(self) {
        let FlushingInput {
            input: _,
            answers: _,
        } = self;
    }
}

impl<R: Read + Drop, W: Write + Drop> Read for FlushingInput<'_, R, W> {
    fn read(&mut self, buf: &mut [u8]) -> io::Result<usize> {
        self.answers.send_all()?;
        self.input.read(buf)
    }
}

/// A writer whose flush leaves the answers in the buffer.
#[derive(Drop)]
pub struct BufferedWriter<'a, W: Write + Drop> {
    answers: &'a BufferedAnswers<W>,
}

impl<W: Write + Drop> Write for BufferedWriter<'_, W> {
    fn write(&mut self, buf: &[u8]) -> io::Result<usize> {
        self.answers.put(buf)
    }

    fn flush(&mut self) -> io::Result<()> {
        Ok(())
    }
}
