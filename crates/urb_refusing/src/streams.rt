//! Readers and writers for tests: each fails at one chosen call.

ghost use Rattle.std.specs.Prelude.{◌≡◌, ◌+◌, ◌-◌, ◌^◌, ◌<◌, ◌≤◌, ◌↔◌, Some, IsErr, IsTrue, IfOk};
ghost use Rattle.std.specs.Prelude.{IfErr, OnOk, OnErr, length, min, take};
ghost use Rattle.std.specs.Io.{ReadsAtMost, WritesAtMost};
ghost use Rattle.std.specs.Io.KnownBytes.{Keeps, ReadConsumes, WriteAppends};
ghost use Rattle.std.specs.IoError.{error_kind};
ghost use Rattle.urb_refusing.specs.Fuses.{IsLast, IsMet};
ghost use Rattle.urb_refusing.specs.internal.FuseCounts.{one_more};

use crate::fuse::Fuse;
use std::io;
use std::io::{ErrorKind, Read, Write};

// The error of a failing call. Callers don't retry after an error of this kind.
fn failure() -> io::Error
    ensures { error_kind result ≡ ErrorKind.Other }
{
    io::Error::from(ErrorKind::Other)
}

/// Reads bytes in pieces of at most `piece` bytes, which must not be 0, and fails at one read. The
/// failing read consumes no byte, and the reads after it continue.
#[derive(Drop)]
pub struct FailingReader<'a> {
    bytes: &'a [u8],
    piece: usize,
    fuse: Fuse,
    ghost some: { 0 < piece },
}

impl<'a> FailingReader<'a> {
    /// A reader of `bytes`, with nothing read yet. Read number `failing` fails, counted from 1;
    /// with 0 no read fails.
    pub fn new(bytes: &'a [u8], piece: usize, failing: u64) -> FailingReader<'a>
        requires { 0 < piece }
        ensures bytes { result.bytes ≡ bytes.entry }
        ensures piece { result.piece ≡ piece }
        ensures fuse { result.fuse ≡ record { asked = 0; refused = failing } }
    {
        FailingReader {
            bytes,
            piece,
            fuse: Fuse::new(failing),
        }
    }

    /// The number of reads that were requested.
    pub fn reads(&self) -> u64
        ensures { result ≡ self.now.fuse.asked }
    {
        self.fuse.calls()
    }

    /// Whether the failing read has been requested.
    pub fn has_failed(&self) -> bool
        ensures { IsTrue result ↔ IsMet self.now.fuse }
    {
        self.fuse.has_failed()
    }

    /// Whether the failing read was the last one: it was requested, and no read followed.
    pub fn failed_last(&self) -> bool
        ensures { IsTrue result ↔ IsLast self.now.fuse }
    {
        self.fuse.failed_last()
    }
}

impl Read for FailingReader<'_> {
    ghost remaining = { λ r. Some r.bytes.now };

    fn read(&mut self, buf: &mut [u8]) -> io::Result<usize>
        ensures bound { ReadsAtMost result buf.new }
        ensures bytes { ReadConsumes (Some self.old.bytes.now) (Some self.new.bytes.now) result
            buf.new }
        // Each call counts once, and the call with the chosen number fails.
        ensures counted { self.new.fuse ≡ one_more self.old.fuse }
        ensures fails { IsErr result ↔ IsLast self.new.fuse }
        ensures kind { IfErr result (λ e. error_kind e ≡ ErrorKind.Other) }
        // Every other call returns a piece of the bytes.
        ensures count { IfOk result
            (λ n. n ≡ min self.old.piece (min (length buf.old) (length self.old.bytes.now))) }
        ensures piece { self.new.piece ≡ self.old.piece }
    {
        let read = self.fuse.next();
        self.fuse = read;
        if read.failed_last() {
            return Err(failure());
        }
        let n = self.piece.min(buf.len()).min(self.bytes.len());
        let (front, rest) = self.bytes.split_at(n);
        buf[..n].copy_from_slice(front);
        self.bytes = rest;
        Ok(n)
    }
}

/// Writes into a buffer of fixed length, at most `piece` bytes a write (with 0, none), and fails at
/// one call: a write or a flush. The failing call writes nothing, and the calls after it continue.
#[derive(Drop)]
pub struct FailingWriter<'a> {
    room: &'a mut [u8],
    filled: usize,
    flushed: usize,
    piece: usize,
    fuse: Fuse,
    flushes: u64,
    ghost within: { filled ≤ length room.now },
}

impl<'a> FailingWriter<'a> {
    /// A writer into `room`, with nothing written yet. Call number `failing` fails, counted from 1;
    /// with 0 no call fails.
    pub fn new(room: &'a mut [u8], piece: usize, failing: u64) -> FailingWriter<'a>
        ensures room { result.room ≡ room.entry }
        ensures empty { (result.filled ≡ 0) × (result.flushed ≡ 0) }
        ensures piece { result.piece ≡ piece }
        ensures fuse { result.fuse ≡ record { asked = 0; refused = failing } }
        ensures flushes { result.flushes ≡ 0 }
    {
        FailingWriter {
            room,
            filled: 0,
            flushed: 0,
            piece,
            fuse: Fuse::new(failing),
            flushes: 0,
        }
    }

    /// The bytes written so far.
    pub fn written(&self) -> &[u8]
        ensures { result.now ≡ take self.now.filled self.now.room.now }
    {
        &self.room[..self.filled]
    }

    /// The number of writes and flushes that were requested.
    pub fn calls(&self) -> u64
        ensures { result ≡ self.now.fuse.asked }
    {
        self.fuse.calls()
    }

    /// The number of flushes that succeeded.
    pub fn flushes(&self) -> u64
        ensures { result ≡ self.now.flushes }
    {
        self.flushes
    }

    /// Whether everything written has been flushed.
    pub fn is_flushed(&self) -> bool
        ensures { IsTrue result ↔ (self.now.flushed ≡ self.now.filled) }
    {
        self.flushed == self.filled
    }

    /// Whether the failing call has been requested.
    pub fn has_failed(&self) -> bool
        ensures { IsTrue result ↔ IsMet self.now.fuse }
    {
        self.fuse.has_failed()
    }

    /// Whether the failing call was the last one: it was requested, and no write or flush followed.
    pub fn failed_last(&self) -> bool
        ensures { IsTrue result ↔ IsLast self.now.fuse }
    {
        self.fuse.failed_last()
    }
}

impl Write for FailingWriter<'_> {
    ghost contents = { λ w. Some (take w.filled w.room.now) };

    fn write(&mut self, buf: &[u8]) -> io::Result<usize>
        ensures bound { WritesAtMost result buf.now }
        ensures bytes { WriteAppends (Some (take self.old.filled self.old.room.now))
            (Some (take self.new.filled self.new.room.now)) result buf.now }
        // Each call counts once, and the call with the chosen number fails.
        ensures counted { self.new.fuse ≡ one_more self.old.fuse }
        ensures fails { IsErr result ↔ IsLast self.new.fuse }
        ensures kind { IfErr result (λ e. error_kind e ≡ ErrorKind.Other) }
        // Every other call takes a piece of the bytes, if there is room.
        ensures count { IfOk result (λ n. n
            ≡ min (min self.old.piece (length buf.now))
            (length self.old.room.now - self.old.filled)) }
        ensures piece { self.new.piece ≡ self.old.piece }
        ensures flushed { self.new.flushed ≡ self.old.flushed }
        ensures flushes { self.new.flushes ≡ self.old.flushes }
    {
        let write = self.fuse.next();
        self.fuse = write;
        if write.failed_last() {
            return Err(failure());
        }
        let left = self.room.len() - self.filled;
        let n = self.piece.min(buf.len()).min(left);
        self.room[self.filled..self.filled + n].copy_from_slice(&buf[..n]);
        self.filled += n;
        Ok(n)
    }

    fn flush(&mut self) -> io::Result<()>
        ensures bytes { Keeps (Some (take self.old.filled self.old.room.now))
            (Some (take self.new.filled self.new.room.now)) }
        // Each call counts once, and the call with the chosen number fails.
        ensures counted { self.new.fuse ≡ one_more self.old.fuse }
        ensures fails { IsErr result ↔ IsLast self.new.fuse }
        ensures kind { IfErr result (λ e. error_kind e ≡ ErrorKind.Other) }
        // Every other call flushes everything written so far.
        ensures filled { self.new.filled ≡ self.old.filled }
        ensures flushed { OnOk result (self.new.flushed ≡ self.old.filled) }
        ensures unflushed { OnErr result (self.new.flushed ≡ self.old.flushed) }
        ensures flushes { OnOk result (self.new.flushes ≡ min (self.old.flushes + 1) (2 ^ 64 - 1)) }
        ensures piece { self.new.piece ≡ self.old.piece }
    {
        let flush = self.fuse.next();
        self.fuse = flush;
        if flush.failed_last() {
            return Err(failure());
        }
        self.flushed = self.filled;
        self.flushes = self.flushes.saturating_add(1);
        Ok(())
    }
}
