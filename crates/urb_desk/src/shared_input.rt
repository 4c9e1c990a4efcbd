//! A session's input, in a buffer that the session's desk can look into.

use crate::next_submits::submits_in;
use std::alloc::Global;
use std::cell::RefCell;
use std::io;
use std::io::{BufReader, ErrorKind, Read};
use urb_client::Request;

/// The input of a session. The session reads it. Its desk can look at the requests that have come
/// but haven't been read yet.
pub struct SharedInput<R: Read + Drop> {
    reader: RefCell<BufReader<R>>,
}

impl<R: Read + Drop> Drop for SharedInput<R> {
    fn drop(self) {
        let SharedInput { reader: _ } = self;
    }
}

impl<R: Read + Drop> SharedInput<R> {
    /// This input, to be shared.
    pub fn new(reader: BufReader<R>) -> SharedInput<R> {
        SharedInput {
            reader: RefCell::new(reader),
        }
    }

    /// The end at which the session reads.
    pub fn reader(&self) -> SharedReader<'_, R> {
        SharedReader { input: self }
    }

    /// The submits that the client has sent next, at most this many. They are whole in the buffer,
    /// and stay there for the session to read. The list ends before the first frame that isn't
    /// whole, is no submit with a payload within the limit, or for which memory is refused. It never
    /// waits for the client.
    pub fn next_submits(&self, alloc: Global, most: usize) -> Vec<Request> {
        match self.reader.try_borrow() {
            Ok(reader) => submits_in(alloc, reader.buffer(), most),
            Err(_) => Vec::new(alloc),
        }
    }
}

/// The end of a shared input at which its session reads.
#[derive(Drop)]
pub struct SharedReader<'i, R: Read + Drop> {
    input: &'i SharedInput<R>,
}

impl<R: Read + Drop> Read for SharedReader<'_, R> {
    fn read(&mut self, buf: &mut [u8]) -> io::Result<usize> {
        match self.input.reader.try_borrow_mut() {
            Ok(mut reader) => reader.read(buf),
            Err(_) => Err(io::Error::from(ErrorKind::Other)),
        }
    }
}
