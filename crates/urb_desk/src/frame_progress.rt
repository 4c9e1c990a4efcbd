//! How far a client's bytes have come in a frame.

/// Whether the bytes that came so far end between two frames. Time limits depend on it. It follows
/// the lengths of frames, and looks at nothing else.
#[derive(Drop)]
pub(crate) struct FrameProgress {
    // The first byte of a length, if its second byte hasn't come yet.
    high: Option<u8>,
    // How many bytes of the frame are still to come.
    left: usize,
    // Whether a frame has ended since the last `take_ended`.
    has_ended: bool,
}

impl FrameProgress {
    /// Between two frames.
    pub(crate) fn new() -> FrameProgress {
        FrameProgress {
            high: None,
            left: 0,
            has_ended: false,
        }
    }

    /// Whether no frame has begun.
    pub(crate) fn is_between_frames(&self) -> bool {
        self.high.is_none() && self.left == 0
    }

    /// Whether a frame has ended since the last such call.
    pub(crate) fn take_ended(&mut self) -> bool {
        let has_ended = self.has_ended;
        self.has_ended = false;
        has_ended
    }

    /// More bytes have come.
    pub(crate) fn advance(&mut self, bytes: &[u8]) {
        let mut rest = bytes;
        for _ in 0..bytes.len() {
            rest = self.advance_once(rest);
        }
    }

    // Goes over the first byte, or over all bytes that belong to the frame that has begun. Returns
    // the bytes after these.
    fn advance_once<'b>(&mut self, bytes: &'b [u8]) -> &'b [u8] {
        let [first, others @ ..] = bytes else {
            return bytes;
        };
        if self.left > 0 {
            let count = self.left.min(bytes.len());
            self.left -= count;
            self.has_ended = self.has_ended || self.left == 0;
            return &bytes[count..];
        }
        match self.high {
            Some(high) => {
                self.high = None;
                self.left = usize::from(high) * 256 + usize::from(*first);
            }
            None => self.high = Some(*first),
        }
        others
    }
}
