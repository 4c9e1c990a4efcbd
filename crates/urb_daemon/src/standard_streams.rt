//! The standard streams. If one was closed at the start, no file and no socket takes its place.

use std::fs::{File, OpenOptions};
use std::ops::RangeInclusive;
use std::os::fd::AsRawFd;
use std::rt::HostRuntime;

/// What takes the places of standard streams that were closed when the program started. While this
/// value exists, a read or a write of such a stream fails, as if the stream were closed.
#[derive(Drop)]
pub struct Streams {
    input: Option<File>,
    outputs: [Option<File>; 2],
}

// Opens the null device if it gets one of these descriptors, which are the lowest ones.
fn open_null_at(
    rt: &HostRuntime,
    options: &OpenOptions,
    places: RangeInclusive<i32>,
) -> Option<File> {
    let file = options.open(rt, "/dev/null").ok()?;
    if places.contains(&file.as_raw_fd()) {
        Some(file)
    } else {
        None
    }
}

impl Streams {
    /// Takes the descriptors that are free. The system gives out the lowest one first, so call this
    /// before anything else is opened.
    pub fn take(rt: &HostRuntime) -> Streams {
        let (mut writes, mut reads) = (OpenOptions::new(), OpenOptions::new());
        writes.write(true);
        reads.read(true);
        Streams {
            input: open_null_at(rt, &writes, 0..=0),
            outputs: [
                open_null_at(rt, &reads, 1..=2),
                open_null_at(rt, &reads, 1..=2),
            ],
        }
    }
}
