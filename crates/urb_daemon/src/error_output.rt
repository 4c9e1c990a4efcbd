//! Standard error behind a thread of its own. A line never makes its writer wait, also if nobody
//! reads standard error.

use crate::stage::{ProgramStage, SharedStage, StageReports, Waited};
use crossbeam_channel::{Receiver, RecvTimeoutError, Sender};
use std::alloc::{AllocError, Global};
use std::fmt::Display;
use std::io::ErrorKind;
use std::sync::atomic::{AtomicU64, Ordering};
use std::sync::{Arc, Wait};
use std::thread::Threads;
use std::time::{Clock, Duration};
use std::{io, thread};
use urb_names::NoMemory;

/// How many texts may wait for the thread that writes them. A text that finds no room is lost.
pub const TEXT_ROOM: usize = 64;

/// How long the end of a run waits for the last texts to be written, in milliseconds.
pub const LAST_WAIT: u64 = 500;

/// From which second on a start or a stop says how far it is, once a second.
pub const FIRST_SECOND: u64 = 2;

// A text that waits to be written, and how many texts were lost right before it.
#[derive(Drop)]
struct Text {
    lost_before: u64,
    text: String,
}

/// An output for errors that never waits. Each text goes through a bounded channel to a thread,
/// which writes it. If that thread waits, because nobody reads the output, the channel fills up, and
/// further texts are lost. The thread counts them, and writes `urbd: lines lost: N` in their place
/// once it can write again. A text whose write fails is lost and counted as well.
///
/// While a start or a stop goes on, the thread says once a second how far it is, from `FIRST_SECOND`
/// on.
///
/// No contract says what a channel holds or what an output shows: tests show it.
#[derive(Drop)]
pub struct ErrorOutput<R: Wait> {
    rt: R,
    alloc: Global,
    texts: Sender<Text>,
    lost: Arc<AtomicU64, Global>,
    ended: Receiver<()>,
    stage: SharedStage,
}

impl<R: Threads + Wait + Clock + Copy + Send + Drop + 'static> ErrorOutput<R> {
    /// Starts the thread that writes to this output. `NoMemory`: memory or a thread was refused.
    pub fn start<E: Eprint + Send + Drop + 'static>(
        rt: R,
        alloc: Global,
        output: E,
    ) -> Result<ErrorOutput<R>, NoMemory> {
        let (texts, queued) = crossbeam_channel::bounded(alloc, TEXT_ROOM)?;
        let (end, ended) = crossbeam_channel::bounded::<(), Global>(alloc, 1)?;
        let lost = Arc::new(alloc, AtomicU64::new(0))?;
        let counted = Arc::try_clone(&lost)?;
        let stage = SharedStage::new(alloc)?;
        let reached = stage.share()?;
        let writer = thread::spawn(&rt, move || {
            write_texts(&rt, &output, &queued, &counted, &reached);
            drop(end);
        });
        match writer {
            Ok(writer) => drop(writer),
            Err(_) => return Err(NoMemory::from(AllocError)),
        }
        Ok(ErrorOutput {
            rt,
            alloc,
            texts,
            lost,
            ended,
            stage,
        })
    }

    /// Ends the output. It waits until the thread has written what was sent, but at most
    /// `LAST_WAIT` milliseconds. If nobody reads the output, the rest is lost, and the thread stays
    /// until the program ends.
    pub fn finish(self) {
        let ErrorOutput {
            rt,
            alloc: _,
            texts,
            lost: _,
            ended,
            stage: _,
        } = self;
        drop(texts);
        let _ = ended.recv_timeout(&rt, Duration::from_millis(LAST_WAIT));
    }
}

impl<R: Wait> ErrorOutput<R> {
    // Sends a text to the thread, or counts it as lost.
    fn send(&self, text: Result<String, AllocError>) -> io::Result<()> {
        let lost_before = self.lost.swap(0, Ordering::SeqCst);
        if let Ok(text) = text
            && self
                .texts
                .try_send(&self.rt, Text { lost_before, text })
                .is_ok()
        {
            return Ok(());
        }
        self.lost
            .fetch_add(lost_before.saturating_add(1), Ordering::SeqCst);
        Err(io::Error::from(ErrorKind::WouldBlock))
    }
}

/// A text that can't be sent at once is lost: `WouldBlock`.
impl<R: Wait> Eprint for ErrorOutput<R> {
    fn eprint<D: Display + Drop>(&self, value: D) -> io::Result<()> {
        self.send(format!(in self.alloc; "{value}"))
    }

    fn eprintln<D: Display + Drop>(&self, value: D) -> io::Result<()> {
        self.send(format!(in self.alloc; "{value}\n"))
    }
}

impl<R: Wait> StageReports for ErrorOutput<R> {
    fn reach(&self, stage: ProgramStage) {
        if self.stage.set(stage) {
            // The thread waits for a text, so an empty one wakes it.
            let text = Text {
                lost_before: 0,
                text: String::new(self.alloc),
            };
            let _ = self.texts.try_send(&self.rt, text);
        }
    }
}

// Writes how many texts were lost, if any. If that can't be written, they stay counted.
fn write_count<E: Eprint>(output: &E, lost: &AtomicU64, count: u64) {
    if count != 0 && eprintln!(output; "urbd: lines lost: {count}").is_err() {
        lost.fetch_add(count, Ordering::SeqCst);
    }
}

// Counts one more second of the start or the stop that goes on, and says how far it is.
fn tell_progress<E: Eprint>(output: &E, stage: &SharedStage, waited: &mut Waited) {
    let Some((phase, what)) = stage.progress() else {
        return;
    };
    let seconds = waited.count(phase);
    if FIRST_SECOND <= seconds {
        let word = phase.word();
        let _ = eprintln!(output; "urbd: {word} for {seconds} s: {what}");
    }
}

// Waits for the next text. `None` if the output has ended. While a start or a stop goes on, it says
// each second how far it is.
fn next_text<R: Wait + Clock, E: Eprint>(
    rt: &R,
    output: &E,
    queued: &Receiver<Text>,
    stage: &SharedStage,
    waited: &mut Waited,
) -> Option<Text> {
    for _ in rt.forever() {
        if stage.progress().is_none() {
            break;
        }
        match queued.recv_timeout(rt, Duration::from_secs(1)) {
            Ok(text) => return Some(text),
            Err(RecvTimeoutError::Disconnected) => return None,
            Err(RecvTimeoutError::Timeout) => tell_progress(output, stage, waited),
        }
    }
    queued.recv(rt).ok()
}

// Writes each text that comes, until the output ends. It reports lost texts right before the next
// text, or once nothing waits.
fn write_texts<R: Wait + Clock, E: Eprint>(
    rt: &R,
    output: &E,
    queued: &Receiver<Text>,
    lost: &AtomicU64,
    stage: &SharedStage,
) {
    let mut waited = Waited::new();
    for _ in rt.forever() {
        let Some(Text { lost_before, text }) = next_text(rt, output, queued, stage, &mut waited)
        else {
            break;
        };
        write_count(output, lost, lost_before);
        if !text.is_empty() && eprint!(output; "{text}").is_err() {
            lost.fetch_add(1, Ordering::SeqCst);
        }
        if queued.is_empty() {
            write_count(output, lost, lost.swap(0, Ordering::SeqCst));
        }
    }
    write_count(output, lost, lost.swap(0, Ordering::SeqCst));
}
