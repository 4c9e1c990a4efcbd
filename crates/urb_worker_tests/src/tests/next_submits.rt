//! The submits that a session's desk finds in its input, behind what the session has read.

use std::alloc::Global;
use std::io;
use std::io::{BufReader, Read};
use std::test::Fail;
use urb_client::Request;
use urb_desk::SharedInput;
use urb_refusing::FailingReader;

// The frames of an input, behind one byte that the session reads first, and how many submits its
// desk finds.
struct Case {
    input: &'static [u8],
    most: usize,
    found: usize,
}

const SUBMIT_READ_SUBMIT: &[u8] = b"-\x00\x08\x01\x00\x07\x00\x00\x00\x01h\
    \x00\x06\x02\x00\x00\x00\x01\x08\x00\x07\x01\x00\x07\x00\x00\x00\x02";

const CASES: [Case; 8] = [
    // two submits of client 7
    Case {
        input: b"-\x00\x09\x01\x00\x07\x00\x00\x00\x01hi\x00\x09\x01\x00\x07\x00\x00\x00\x02ho",
        most: 15,
        found: 2,
    },
    // both again, and one is asked for
    Case {
        input: b"-\x00\x09\x01\x00\x07\x00\x00\x00\x01hi\x00\x09\x01\x00\x07\x00\x00\x00\x02ho",
        most: 1,
        found: 1,
    },
    // a submit, and one that isn't whole
    Case {
        input: b"-\x00\x09\x01\x00\x07\x00\x00\x00\x01hi\x00\x09\x01\x00\x07\x00\x00\x00\x02h",
        most: 15,
        found: 1,
    },
    // a submit, a read, and a submit
    Case {
        input: SUBMIT_READ_SUBMIT,
        most: 15,
        found: 1,
    },
    // a frame without a byte, and a submit
    Case {
        input: b"-\x00\x00\x00\x09\x01\x00\x07\x00\x00\x00\x01hi",
        most: 15,
        found: 0,
    },
    // a submit of client 0, which is no request
    Case {
        input: b"-\x00\x09\x01\x00\x00\x00\x00\x00\x01hi",
        most: 15,
        found: 0,
    },
    // half a length
    Case {
        input: b"-\x00",
        most: 15,
        found: 0,
    },
    // nothing
    Case {
        input: b"-",
        most: 15,
        found: 0,
    },
];

// The submits that a desk finds once the session has read one byte of this input.
fn find_next(alloc: Global, input: &'static [u8], most: usize) -> io::Result<Vec<Request>> {
    let input = FailingReader::new(input, 64, 0);
    let shared = SharedInput::new(BufReader::new(alloc, input)?);
    let mut byte = [0u8; 1];
    let _ = shared.reader().read(&mut byte)?;
    Ok(shared.next_submits(alloc, most))
}

#[test]
fn a_desk_finds_the_submits_at_the_front(rt: HostRuntime) -> Result<(), Fail> {
    for case in &CASES {
        let found = find_next(rt.alloc(), case.input, case.most)?;
        assert_eq!(rt; found.len(), case.found);
    }
    Ok(())
}

// Whether a request is the second submit of these inputs.
fn is_second(request: &Request) -> bool {
    match request {
        Request::Submit {
            client,
            number,
            payload,
        } => client.number() == 7 && *number == 2 && payload.as_slice() == b"ho".as_slice(),
        _ => false,
    }
}

// Whether the desk finds the second submit once the session has read the first one.
fn finds_second<R: Read + Drop>(alloc: Global, shared: &SharedInput<R>) -> bool {
    let found = shared.next_submits(alloc, 15);
    match found.first() {
        Some(request) => is_second(request),
        None => false,
    }
}

// Whether a session reads these bytes next.
fn reads<R: Read + Drop>(shared: &SharedInput<R>, wanted: &[u8], room: &mut [u8]) -> bool {
    shared.reader().read_exact(room).is_ok() && &*room == wanted
}

#[test]
fn the_session_still_reads_what_its_desk_has_found(rt: HostRuntime) -> Result<(), Fail> {
    let (first, second) = CASES[0].input.split_at(12);
    let input = FailingReader::new(CASES[0].input, 64, 0);
    let shared = SharedInput::new(BufReader::new(rt.alloc(), input)?);
    let went_well = reads(&shared, first, &mut [0u8; 12])
        && finds_second(rt.alloc(), &shared)
        && reads(&shared, second, &mut [0u8; 11]);
    assert!(rt; went_well);
    Ok(())
}
