//! Answers go out together, and before a read that may wait.

use std::alloc::Global;
use std::io;
use std::io::{Read, Write};
use std::test::Fail;
use urb_client::BufferedAnswers;
use urb_refusing::{FailingReader, FailingWriter};

// Answers each byte of an input by itself, and returns whether all answers went out.
fn echo(
    alloc: Global,
    input: FailingReader<'_>,
    output: &mut FailingWriter<'_>,
) -> io::Result<bool> {
    let answers = BufferedAnswers::new(alloc, output)?;
    let mut reader = answers.reader(alloc, input)?;
    let mut writer = answers.writer();
    let mut byte = [0u8; 1];
    for _ in 0..100u8 {
        match reader.read(&mut byte) {
            Ok(1) => {
                writer.write_all(&byte)?;
                writer.flush()?;
            }
            _ => break,
        }
    }
    let _ = answers.send_all();
    Ok(!answers.has_failed())
}

#[test]
fn answers_go_out_together(rt: HostRuntime) -> Result<(), Fail> {
    let mut room = [0u8; 8];
    let mut output = FailingWriter::new(&mut room, 8, 0);
    let input = FailingReader::new(b"abcdef", 3, 0);
    assert!(rt; echo(rt.alloc(), input, &mut output)?);
    assert_eq!(rt; output.written(), b"abcdef".as_slice());
    // Two pieces came in, and the answers to each piece went out at once.
    assert_eq!(rt; output.calls().checked_sub(output.flushes()), Some(2));
    Ok(())
}

#[test]
fn answers_that_do_not_go_out_are_told(rt: HostRuntime) -> Result<(), Fail> {
    for failing in 1..4u64 {
        let mut room = [0u8; 8];
        let mut output = FailingWriter::new(&mut room, 8, failing);
        let input = FailingReader::new(b"abcdef", 3, 0);
        assert!(rt; !echo(rt.alloc(), input, &mut output)?);
        assert!(rt; output.has_failed());
    }
    Ok(())
}
