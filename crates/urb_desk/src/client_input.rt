//! The input of a client's connection, with its time limits.

use crate::connections::Connections;
use crate::frame_progress::FrameProgress;
use std::io;
use std::io::{ErrorKind, Read};
use std::time::{Clock, Duration, Instant};
use urb_link::Stop;
use urb_local::LocalStream;

/// A client's bytes. They end at the stop. A read fails if the client takes longer than the node's
/// limits say.
#[derive(Drop)]
pub(crate) struct ClientInput<'a, R: Clock> {
    rt: &'a R,
    stream: &'a LocalStream,
    stop: &'a Stop,
    connections: &'a Connections,
    progress: FrameProgress,
    // When the frame began that hasn't come whole yet.
    began: Option<Instant>,
    // Whether the stream's limit is that of a frame, and not that of an idle client.
    is_short: bool,
}

// Sets the time that a read of this stream may take, in milliseconds. It takes 0 as 1.
fn set_limit(stream: &LocalStream, millis: u32) -> io::Result<()> {
    stream.set_read_timeout(Duration::from_millis(u64::from(millis.max(1))))
}

impl<'a, R: Clock> ClientInput<'a, R> {
    /// The input of a new connection. An error is the system's.
    pub(crate) fn new(
        rt: &'a R,
        stream: &'a LocalStream,
        stop: &'a Stop,
        connections: &'a Connections,
    ) -> io::Result<ClientInput<'a, R>> {
        set_limit(stream, connections.limits().idle_millis)?;
        Ok(ClientInput {
            rt,
            stream,
            stop,
            connections,
            progress: FrameProgress::new(),
            began: None,
            is_short: false,
        })
    }

    // Sets the time that the next read may take: what is left of a frame's time, or an idle time.
    fn limit_read(&mut self) -> io::Result<()> {
        if self.progress.is_between_frames() {
            if self.is_short {
                self.is_short = false;
                set_limit(self.stream, self.connections.limits().idle_millis)?;
            }
            return Ok(());
        }
        self.is_short = true;
        let now = Instant::now(self.rt)?;
        let began = *self.began.get_or_insert(now);
        let most = Duration::from_millis(u64::from(self.connections.limits().frame_millis));
        match most.checked_sub(now.duration_since(began)) {
            Some(rest) if !rest.is_zero() => self.stream.set_read_timeout(rest),
            _ => Err(io::Error::from(ErrorKind::TimedOut)),
        }
    }

    // These bytes have come.
    fn note(&mut self, bytes: &[u8]) {
        self.progress.advance(bytes);
        if self.progress.take_ended() {
            self.began = None;
        }
    }

    // Whether a client that has sent nothing for so many idle times may stay.
    fn may_stay(&self, times: u32) -> bool {
        let most = self
            .connections
            .limits()
            .times_until_closed(self.connections.is_full());
        self.progress.is_between_frames() && times < most
    }
}

impl<'a, R: Clock> Read for ClientInput<'a, R> {
    fn read(&mut self, buf: &mut [u8]) -> io::Result<usize> {
        self.limit_read()?;
        for times in 1..=self.connections.limits().idle_times {
            if self.stop.is_set() {
                return Ok(0);
            }
            let mut stream = self.stream;
            match stream.read(buf) {
                Ok(count) => {
                    self.note(&buf[..count]);
                    return Ok(count);
                }
                Err(error) => {
                    if error.kind() != ErrorKind::WouldBlock || !self.may_stay(times) {
                        return Err(error);
                    }
                }
            }
        }
        Err(io::Error::from(ErrorKind::TimedOut))
    }
}
