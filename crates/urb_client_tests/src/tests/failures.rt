//! Runs in which memory is refused, or the reader or the writer fails.
//!
//! The first allocation, read or write fails, in the next run the second, and so on.

use super::frames::eight_entries;
use super::node::OneNode;
use super::receiving::has_entries;
use super::{ANSWERED, SENT, first_frame};
use std::alloc::{Allocator, Global};
use std::fmt::Display;
use std::io::Read;
use urb_client::*;
use urb_refusing::{FailingReader, FailingWriter, Refusing};

// What fails, and in which kind of run.
#[derive(Clone, Copy)]
enum Failing {
    // An allocation of a session is refused.
    SessionGrowth,
    // A read of a session fails.
    SessionRead,
    // A write or a flush of a session fails.
    SessionWrite,
    // An allocation is refused while an ENTRIES response is written and read again.
    PageGrowth,
    // A read of a response fails.
    ResponseRead,
    // An allocation is refused while a response is received.
    ResponseGrowth,
}

// The result of a run. `Told`: the failure was reported. `Well`: no failure was met, and all went
// well. `Other`: anything else, which is an error.
#[derive(Clone, Copy)]
enum RunResult {
    Told,
    Well,
    Other,
}

// Returns the result of a run. `met`: the failure was met. `told`: it was reported then. `well`:
// without a failure, all went well.
fn run_result(met: bool, told: bool, well: bool) -> RunResult {
    match (met, told, well) {
        (true, true, _) => RunResult::Told,
        (false, _, true) => RunResult::Well,
        _ => RunResult::Other,
    }
}

// Where a session fails, and in what pieces it reads and writes. `growth`, `read` and `write` say
// which allocation, which read, and which write or flush fails; 0 means none. `pieces`: how many
// bytes one read gives, and how many one write takes.
#[derive(Clone, Copy)]
struct Course {
    growth: u64,
    read: u64,
    write: u64,
    pieces: (usize, usize),
}

// A session that fails nowhere, and whose reader gives pieces of three bytes.
const SMOOTH: Course = Course {
    growth: 0,
    read: 0,
    write: 0,
    pieces: (3, 100),
};

// The result of a session.
#[derive(Clone, Copy)]
struct Outcome {
    // How it ended.
    ended: Result<Ended, SessionFault>,
    // Its failure was met.
    met: bool,
    // The call that failed was the last of its kind.
    last: bool,
    // All answers were written.
    all: bool,
    // The first answers were written, up to some number, none cut off.
    whole: bool,
    // All that was written was flushed.
    flushed: bool,
    // How many reads there were.
    reads: u64,
    // How many flushes there were.
    flushes: u64,
}

impl Outcome {
    // Says whether the session ended because its reader failed.
    fn ends_unread(&self) -> bool {
        matches!(self.ended, Err(SessionFault::Read(_)))
    }

    // Says whether the session ended because its writer failed.
    fn ends_unwritten(&self) -> bool {
        matches!(self.ended, Err(SessionFault::Write(_)))
    }

    // Says whether the session ended because memory was refused.
    fn ends_without_memory(&self) -> bool {
        matches!(self.ended, Err(SessionFault::NoMemory(_)))
    }

    // Says whether the session went as it does without a failure.
    fn is_well(&self) -> bool {
        self.ended == Ok(Ended::BadFrame) && self.all && self.flushed && self.flushes == 8
    }
}

// Says whether these bytes are the first answers, up to some number, none cut off.
fn are_whole_answers(written: &[u8]) -> bool {
    let (mut rest, mut answered) = (written, ANSWERED);
    for _ in 0..8u8 {
        let (answer, answers) = first_frame(answered);
        match rest.strip_prefix(answer) {
            Some(after) => (rest, answered) = (after, answers),
            None => return rest.is_empty(),
        }
    }
    rest.is_empty()
}

// Returns how a session ends at the desk of a node whose log is empty.
fn run_session<A: Allocator + Copy>(
    alloc: A,
    reader: &mut FailingReader<'_>,
    writer: &mut FailingWriter<'_>,
) -> Result<Ended, SessionFault> {
    let mut desk = OneNode::new(alloc);
    session(alloc, reader, writer, &mut desk)
}

// Plays the worked session (`SENT`) on this course, and returns its result.
fn run_worked_session(alloc: Global, course: Course) -> Outcome {
    let heap = Refusing::new(alloc, course.growth);
    let mut reader = FailingReader::new(SENT, course.pieces.0.max(1), course.read);
    let mut room = [0u8; 100];
    let mut writer = FailingWriter::new(&mut room, course.pieces.1, course.write);
    let ended = run_session(&heap, &mut reader, &mut writer);
    Outcome {
        ended,
        met: heap.has_failed() || reader.has_failed() || writer.has_failed(),
        last: heap.growths() == course.growth || reader.failed_last() || writer.failed_last(),
        all: writer.written() == ANSWERED,
        whole: are_whole_answers(writer.written()),
        flushed: writer.is_flushed(),
        reads: reader.reads(),
        flushes: writer.flushes(),
    }
}

#[test]
fn a_session_ends_at_a_bad_length_byte_by_byte(rt: HostRuntime) {
    let outcome = run_worked_session(
        rt.alloc(),
        Course {
            pieces: (1, 100),
            ..SMOOTH
        },
    );
    assert!(rt; outcome.is_well());
    // A read for each byte up to the bad length, and no read for the frame after it.
    assert_eq!(rt; outcome.reads, 52);
}

// Runs a session, refuses this allocation, and writes answers in pieces. Returns its result.
fn session_growth(alloc: Global, number: u64) -> RunResult {
    let outcome = run_worked_session(
        alloc,
        Course {
            growth: number,
            pieces: (1200, 3),
            ..SMOOTH
        },
    );
    let told = outcome.ends_without_memory() && outcome.last && outcome.whole;
    run_result(outcome.met, told, outcome.is_well())
}

// Runs a session and makes this read fail. Returns its result.
fn session_read(alloc: Global, number: u64) -> RunResult {
    let outcome = run_worked_session(
        alloc,
        Course {
            read: number,
            ..SMOOTH
        },
    );
    let told = outcome.ends_unread() && outcome.last && outcome.whole && outcome.flushed;
    run_result(outcome.met, told, outcome.is_well())
}

// Returns how many reads the first answers take: two per frame, but one for the eighth frame, whose
// length is 0.
fn reads_for(answers: u64) -> u64 {
    answers.saturating_mul(2).min(15)
}

// Runs a session and makes this write or flush fail. Returns its result. The session reads a frame
// only after the answer before it was flushed, and reads nothing after the fault.
fn session_write(alloc: Global, number: u64) -> RunResult {
    let outcome = run_worked_session(
        alloc,
        Course {
            write: number,
            pieces: (1200, 100),
            ..SMOOTH
        },
    );
    let told = outcome.ends_unwritten() && outcome.last;
    let reads = reads_for(number.saturating_add(1) / 2);
    run_result(
        outcome.met,
        told && outcome.reads == reads,
        outcome.is_well(),
    )
}

// Returns the result of writing an ENTRIES response and reading it again, with this allocation
// refused.
fn page_growth(alloc: Global, number: u64) -> RunResult {
    let heap = Refusing::new(alloc, number);
    let read = eight_entries(&heap);
    run_result(heap.has_failed(), read.is_err(), read == Ok(true))
}

// An ENTRIES response with one entry.
const PAGE: &[u8] = b"\x00\x11\x82\x01\x01\x00\x00\x00\x01\x00\x07\x00\x00\x00\x01\x00\x02hi";

// Returns how often the frame of this page takes memory.
fn growths_of_frame(alloc: Global) -> Option<u64> {
    let heap = Refusing::new(alloc, 0);
    let [_, _, bytes @ ..] = PAGE else {
        return None;
    };
    let Ok(Some(response)) = parse_response(&heap, bytes) else {
        return None;
    };
    let before = heap.growths();
    encode_response(&heap, &response).ok()?;
    heap.growths().checked_sub(before)
}

#[test]
fn a_frame_takes_memory_once(rt: HostRuntime) {
    assert_eq!(rt; growths_of_frame(rt.alloc()), Some(1));
}

// Returns the result of receiving a response, with this read failing.
fn response_read(alloc: Global, number: u64) -> RunResult {
    let mut reader = FailingReader::new(PAGE, 3, number);
    let read = has_entries(alloc, &mut reader);
    let told = matches!(&read, Err(ResponseFault::Read(_))) && reader.failed_last();
    run_result(reader.has_failed(), told, read == Ok(true))
}

// Returns the result of receiving a response, with this allocation refused.
fn response_growth(alloc: Global, number: u64) -> RunResult {
    let heap = Refusing::new(alloc, number);
    let mut reader = PAGE;
    let read = has_entries(&heap, &mut reader);
    let told = matches!(&read, Err(ResponseFault::NoMemory(_)));
    run_result(heap.has_failed(), told, read == Ok(true))
}

// Returns the result of a run that fails at this place.
fn run_failing_at(alloc: Global, failing: Failing, number: u64) -> RunResult {
    match failing {
        Failing::SessionGrowth => session_growth(alloc, number),
        Failing::SessionRead => session_read(alloc, number),
        Failing::SessionWrite => session_write(alloc, number),
        Failing::PageGrowth => page_growth(alloc, number),
        Failing::ResponseRead => response_read(alloc, number),
        Failing::ResponseGrowth => response_growth(alloc, number),
    }
}

// Fails each place in turn, up to 199. Returns the first place that a run doesn't reach. If a
// run goes wrong, returns its place as `Err`, or 200 if each run reached its place.
fn first_unmet(alloc: Global, failing: Failing) -> Result<u64, u64> {
    for number in 1..200u64 {
        match run_failing_at(alloc, failing, number) {
            RunResult::Told => {}
            RunResult::Well => return Ok(number),
            RunResult::Other => return Err(number),
        }
    }
    Err(200)
}

#[test]
fn each_growth_may_be_refused(rt: HostRuntime) {
    let unmet = first_unmet(rt.alloc(), Failing::SessionGrowth);
    assert!(rt; matches!(unmet, Ok(2..)), "{unmet:?}");
}

#[test]
fn the_reader_may_fail_at_each_call(rt: HostRuntime) {
    // A length takes one read, and each three bytes after it take one more: 22 reads.
    assert_eq!(rt; first_unmet(rt.alloc(), Failing::SessionRead), Ok(23));
}

#[test]
fn each_write_and_each_flush_may_fail(rt: HostRuntime) {
    // Each of eight answers takes a write, and a flush after it.
    assert_eq!(rt; first_unmet(rt.alloc(), Failing::SessionWrite), Ok(17));
}

#[test]
fn each_growth_of_a_frame_may_be_refused(rt: HostRuntime) {
    let unmet = first_unmet(rt.alloc(), Failing::PageGrowth);
    assert!(rt; matches!(unmet, Ok(22..)), "{unmet:?}");
}

#[test]
fn a_failed_read_is_told(rt: HostRuntime) {
    // The length takes one read, and each three bytes after it take one more: seven reads.
    assert_eq!(rt; first_unmet(rt.alloc(), Failing::ResponseRead), Ok(8));
}

#[test]
fn each_growth_for_a_response_may_be_refused(rt: HostRuntime) {
    let unmet = first_unmet(rt.alloc(), Failing::ResponseGrowth);
    assert!(rt; matches!(unmet, Ok(2..)), "{unmet:?}");
}

// Says whether the fault has this text.
fn is_written<F: Display>(alloc: Global, fault: &F, text: &str) -> bool {
    match format!(in alloc; "{fault}") {
        Ok(written) => written.as_str() == text,
        Err(_) => false,
    }
}

// Says whether a session that fails on this course ends with a fault of this text.
fn fails_with(alloc: Global, course: Course, text: &str) -> bool {
    match run_worked_session(alloc, course).ended {
        Ok(_) => false,
        Err(fault) => is_written(alloc, &fault, text),
    }
}

// Says whether receiving a response ends with a fault of this text.
fn is_told<A: Allocator + Copy, R: Read>(
    alloc: Global,
    heap: A,
    reader: &mut R,
    text: &str,
) -> bool {
    match has_entries(heap, reader) {
        Ok(_) => false,
        Err(fault) => is_written(alloc, &fault, text),
    }
}

#[test]
fn faults_have_their_texts(rt: HostRuntime) {
    let alloc = rt.alloc();
    let refusing = Refusing::new(alloc, 1);
    let mut failing = FailingReader::new(PAGE, 3, 1);
    let (mut page, mut empty) = (PAGE, b"".as_slice());
    let written = [
        fails_with(alloc, Course { read: 1, ..SMOOTH }, "read failed"),
        fails_with(alloc, Course { write: 1, ..SMOOTH }, "write failed"),
        fails_with(
            alloc,
            Course {
                growth: 1,
                ..SMOOTH
            },
            "no memory",
        ),
        is_written(alloc, &SessionFault::TooMany, "too many frames"),
        is_told(alloc, alloc, &mut failing, "read failed"),
        is_told(alloc, &refusing, &mut page, "no memory"),
        is_told(alloc, alloc, &mut empty, "bad reply"),
    ];
    assert_eq!(rt; written, [true; 7]);
}
