//! An output for errors that nobody reads, or that fails: nobody who writes to it waits, and lost
//! lines are counted.

use super::groups::{answers, events_of};
use crossbeam_channel::{Receiver, Sender, TryRecvError};
use std::alloc::Global;
use std::fmt::Display;
use std::io::ErrorKind;
use std::net::{Net, TcpListener, TcpStream};
use std::ops::Range;
use std::sync::Wait;
use std::test::Fail;
use std::time::Duration;
use std::{io, thread};
use urb_daemon::{ErrorOutput, ProgramStage, Reports, StageReports, TEXT_ROOM};
use urb_link::Station;
use urb_worker::Watch;

/// An output like a full pipe. Each write says that it has begun, and waits until it is let through.
#[derive(Drop)]
struct FullPipe<R: Wait> {
    rt: R,
    alloc: Global,
    begun: Sender<()>,
    gate: Receiver<()>,
    written: Sender<String>,
}

impl<R: Wait> FullPipe<R> {
    fn write(&self, text: String) -> io::Result<()> {
        let _ = self.begun.send(&self.rt, ());
        let _ = self.gate.recv(&self.rt);
        let _ = self.written.send(&self.rt, text);
        Ok(())
    }
}

impl<R: Wait> Eprint for FullPipe<R> {
    fn eprint<D: Display + Drop>(&self, value: D) -> io::Result<()> {
        self.write(format!(in self.alloc; "{value}")?)
    }

    fn eprintln<D: Display + Drop>(&self, value: D) -> io::Result<()> {
        self.write(format!(in self.alloc; "{value}\n")?)
    }
}

/// What a test holds of a full pipe.
#[derive(Drop)]
struct PipeEnds {
    begun: Receiver<()>,
    /// Lets one write through for each value, and all of them once it is dropped.
    gate: Sender<()>,
    written: Receiver<String>,
}

// A full pipe, and its ends.
fn make_pipe<R: Wait + Drop>(rt: R, alloc: Global) -> Option<(FullPipe<R>, PipeEnds)> {
    let (begins, begun) = crossbeam_channel::unbounded(alloc).ok()?;
    let (opens, gate) = crossbeam_channel::unbounded(alloc).ok()?;
    let (writes, written) = crossbeam_channel::unbounded(alloc).ok()?;
    let pipe = FullPipe {
        rt,
        alloc,
        begun: begins,
        gate,
        written: writes,
    };
    let ends = PipeEnds {
        begun,
        gate: opens,
        written,
    };
    Some((pipe, ends))
}

// How many of these lines were taken. Each is its number.
fn write_numbers<E: Eprint>(errors: &E, numbers: Range<u32>) -> usize {
    let mut taken = 0usize;
    for number in numbers {
        if eprintln!(errors; "{number}").is_ok() {
            taken = taken.saturating_add(1);
        }
    }
    taken
}

// Everything that was written, once the writer has ended.
fn all_written<R: Wait>(rt: &R, alloc: Global, written: &Receiver<String>) -> Option<String> {
    let mut all = String::new(alloc);
    for text in written.iter(rt) {
        all.push_str(text.as_str()).ok()?;
    }
    Some(all)
}

// The lines with these numbers.
fn lines(alloc: Global, numbers: Range<u32>) -> Option<String> {
    let mut all = String::new(alloc);
    for number in numbers {
        write!(all, "{number}\n").ok()?;
    }
    Some(all)
}

#[test]
fn a_full_pipe_loses_lines_and_says_how_many_in_their_place(rt: HostRuntime) -> Result<(), Fail> {
    let (pipe, ends) = make_pipe(rt, rt.alloc()).ok_or("memory")?;
    let errors = ErrorOutput::start(rt, rt.alloc(), pipe).map_err(|_| "memory")?;
    // The thread has taken the first line, and waits. So there is room for `TEXT_ROOM` more.
    assert_eq!(rt; write_numbers(&errors, 0..1), 1);
    let _ = ends.begun.recv(&rt);
    assert_eq!(rt; write_numbers(&errors, 1..100), TEXT_ROOM);
    // It takes the second line, so there is room for one more.
    let _ = ends.gate.send(&rt, ());
    let _ = ends.begun.recv(&rt);
    assert_eq!(rt; write_numbers(&errors, 100..110), 1);
    drop(ends.gate);
    errors.finish();
    let mut expected = lines(rt.alloc(), 0..65).ok_or("memory")?;
    expected.push_str("urbd: lines lost: 35\n100\nurbd: lines lost: 9\n")?;
    let written = all_written(&rt, rt.alloc(), &ends.written).ok_or("memory")?;
    assert_eq!(rt; written.as_str(), expected.as_str());
    Ok(())
}

#[test]
fn an_end_leaves_an_output_that_nobody_reads(rt: HostRuntime) -> Result<(), Fail> {
    let (pipe, ends) = make_pipe(rt, rt.alloc()).ok_or("memory")?;
    let errors = ErrorOutput::start(rt, rt.alloc(), pipe).map_err(|_| "memory")?;
    assert_eq!(rt; write_numbers(&errors, 0..3), 3);
    errors.finish();
    assert!(rt; ends.written.try_recv(&rt).err() == Some(TryRecvError::Empty));
    drop(ends.gate);
    let written = all_written(&rt, rt.alloc(), &ends.written).ok_or("memory")?;
    assert_eq!(rt; written.as_str(), "0\n1\n2\n");
    Ok(())
}

/// An output whose writes fail for each text that begins with `x`.
#[derive(Drop)]
struct Failing<R: Wait> {
    rt: R,
    alloc: Global,
    written: Sender<String>,
}

impl<R: Wait> Failing<R> {
    fn write(&self, text: String) -> io::Result<()> {
        if text.as_bytes().starts_with(b"x") {
            return Err(io::Error::from(ErrorKind::BrokenPipe));
        }
        let _ = self.written.send(&self.rt, text);
        Ok(())
    }
}

impl<R: Wait> Eprint for Failing<R> {
    fn eprint<D: Display + Drop>(&self, value: D) -> io::Result<()> {
        self.write(format!(in self.alloc; "{value}")?)
    }

    fn eprintln<D: Display + Drop>(&self, value: D) -> io::Result<()> {
        self.write(format!(in self.alloc; "{value}\n")?)
    }
}

#[test]
fn a_line_whose_write_fails_is_counted_as_lost(rt: HostRuntime) -> Result<(), Fail> {
    let (writes, written) = crossbeam_channel::unbounded(rt.alloc())?;
    let failing = Failing {
        rt,
        alloc: rt.alloc(),
        written: writes,
    };
    let errors = ErrorOutput::start(rt, rt.alloc(), failing).map_err(|_| "memory")?;
    assert!(rt; eprintln!(&errors; "x").is_ok());
    let first = written.recv(&rt).map_err(|_| "an end")?;
    assert_eq!(rt; first.as_str(), "urbd: lines lost: 1\n");
    assert!(rt; eprintln!(&errors; "y").is_ok());
    errors.finish();
    let rest = all_written(&rt, rt.alloc(), &written).ok_or("memory")?;
    assert_eq!(rt; rest.as_str(), "y\n");
    Ok(())
}

#[test]
fn a_start_or_a_stop_that_takes_long_says_each_second_how_far_it_is(
    rt: HostRuntime,
) -> Result<(), Fail> {
    let (writes, written) = crossbeam_channel::unbounded(rt.alloc())?;
    let output = Failing {
        rt,
        alloc: rt.alloc(),
        written: writes,
    };
    let errors = ErrorOutput::start(rt, rt.alloc(), output).map_err(|_| "memory")?;
    for (stage, line) in [
        (
            ProgramStage::Journals,
            "urbd: starting for 2 s: opening the journals\n",
        ),
        (
            ProgramStage::Journals,
            "urbd: starting for 3 s: opening the journals\n",
        ),
        (
            ProgramStage::Records,
            "urbd: starting for 4 s: reading the records of the journals\n",
        ),
        (
            ProgramStage::Sessions,
            "urbd: stopping for 2 s: waiting for the sessions of clients\n",
        ),
        (
            ProgramStage::Files,
            "urbd: stopping for 3 s: closing the journals\n",
        ),
    ] {
        errors.reach(stage);
        let told = written.recv(&rt).map_err(|_| "an end")?;
        assert_eq!(rt; told.as_str(), line);
    }
    errors.reach(ProgramStage::Quiet);
    thread::sleep(&rt, Duration::from_millis(1_500));
    assert!(rt; eprintln!(&errors; "a line").is_ok());
    errors.finish();
    let rest = all_written(&rt, rt.alloc(), &written).ok_or("memory")?;
    assert_eq!(rt; rest.as_str(), "a line\n");
    Ok(())
}

// A crash and a restart, 200 times, and a bad length, which ends the session.
fn crashes_and_restarts(alloc: Global) -> Option<Vec<u8>> {
    let mut sent = Vec::new(alloc);
    for _ in 0..200u32 {
        sent.extend_from_slice(&[0, 1, 4, 0, 1, 5]).ok()?;
    }
    sent.extend_from_slice(&[0, 0]).ok()?;
    Some(sent)
}

/// A client that crashes and restarts the first node, and whether each request was done.
#[derive(Drop)]
struct Crasher<'a, R: Net<Listener = TcpListener, Stream = TcpStream>> {
    rt: &'a R,
    alloc: Global,
    is_done: bool,
}

impl<'a, R: Net<Listener = TcpListener, Stream = TcpStream>> Watch for Crasher<'a, R> {
    fn watch(&mut self, stations: &[Station]) {
        if let [station, ..] = stations
            && let Some(sent) = crashes_and_restarts(self.alloc)
            && let Some(answered) = answers(self.rt, self.alloc, station, sent.as_slice())
        {
            // Each of the 400 answers is three bytes. The end of the session is another eight.
            let is_done = |answer: &[u8]| answer == [0, 1, 0x84].as_slice();
            self.is_done = answered.len() == 1_208
                && answered.as_slice().chunks_exact(3).take(400).all(is_done);
        }
    }
}

#[test]
fn a_group_whose_reports_nobody_reads_answers_and_ends(rt: HostRuntime) -> Result<(), Fail> {
    let (pipe, ends) = make_pipe(rt, rt.alloc()).ok_or("memory")?;
    let errors = ErrorOutput::start(rt, rt.alloc(), pipe).map_err(|_| "memory")?;
    let reports = Reports::new(&errors);
    let mut client = Crasher {
        rt: &rt,
        alloc: rt.alloc(),
        is_done: false,
    };
    let events = events_of(&rt, rt.alloc(), 1, 60_000, &reports, &mut client);
    assert!(rt; client.is_done);
    assert_eq!(rt; events, Some(400));
    errors.finish();
    drop(ends.gate);
    let written = all_written(&rt, rt.alloc(), &ends.written).ok_or("memory")?;
    assert!(rt;
        written
            .as_str()
            .starts_with("urbd: node 1 is down: asked to crash\n")
    );
    Ok(())
}
