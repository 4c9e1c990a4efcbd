//! Tests of the allocator's count, which no contract can name because it is in a cell; and of the
//! reader and the writer.

use std::alloc::{AllocError, Global};
use std::io::{Read, Write};
use std::test::Fail;
use urb_refusing::{FailingReader, FailingWriter, Refusing};

/// Requests one growth from the allocator.
fn grows(heap: &Refusing<Global>) -> Result<(), AllocError> {
    let _grown: Vec<u8, &Refusing<Global>> = Vec::with_capacity(heap, 8)?;
    Ok(())
}

#[test]
fn the_growth_of_that_number_is_refused_and_no_other(rt: HostRuntime) {
    for refused in 0..5u64 {
        let heap = Refusing::new(rt.alloc(), refused);
        assert!(rt; heap.growths() == 0 && !heap.has_failed());
        for growth in 1..4u64 {
            assert_eq!(rt; grows(&heap).is_err(), growth == refused);
            assert_eq!(rt; heap.growths(), growth);
            assert_eq!(rt; heap.has_failed(), refused != 0 && refused <= growth);
        }
    }
}

#[test]
fn a_reader_fails_at_the_read_of_its_number(rt: HostRuntime) {
    let mut reader = FailingReader::new(b"abcde", 2, 2);
    let mut buffer = [0u8; 4];
    for (given, met, last) in [
        (Some(2), false, false),
        (None, true, true),
        (Some(2), true, false),
        (Some(1), true, false),
        (Some(0), true, false),
    ] {
        assert_eq!(rt; reader.read(&mut buffer).ok(), given);
        assert_eq!(rt; (reader.has_failed(), reader.failed_last()), (met, last));
    }
    assert_eq!(rt; reader.reads(), 5);
    assert_eq!(rt; buffer, *b"ed\0\0");
}

#[test]
fn a_writer_fails_at_the_call_of_its_number(rt: HostRuntime) {
    // A write of four bytes takes two calls; the flush is the third.
    for (failing, written, flushed) in [
        (0, b"abcd".as_slice(), true),
        (1, b"", true),
        (2, b"ab", false),
        (3, b"abcd", false),
        (4, b"abcd", true),
    ] {
        let mut room = [0u8; 5];
        let mut writer = FailingWriter::new(&mut room, 2, failing);
        let done = writer.write_all(b"abcd").is_ok() && writer.flush().is_ok();
        assert_eq!(rt; done, !writer.has_failed());
        assert_eq!(rt; writer.failed_last(), writer.has_failed());
        assert_eq!(rt; writer.written(), written);
        assert_eq!(rt; writer.is_flushed(), flushed);
        assert_eq!(rt; writer.flushes() == 1, done);
        assert!(rt; writer.calls() <= 3);
    }
}
