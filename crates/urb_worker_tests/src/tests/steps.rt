//! What the tickets ask that a test gives a worker.

/// A ticket of a test, at node 1. A submit is of one client, with this number.
#[derive(Clone, Copy)]
pub(super) enum Step {
    Submit(u32),
    Status,
    Crash,
    Restart,
}

/// Five submits, and a status before the last one.
pub(super) const FIVE: [Step; 6] = [
    Step::Submit(1),
    Step::Submit(2),
    Step::Submit(3),
    Step::Submit(4),
    Step::Status,
    Step::Submit(5),
];

/// Nineteen submits, and a status before the last one.
pub(super) const NINETEEN: [Step; 20] = [
    Step::Submit(1),
    Step::Submit(2),
    Step::Submit(3),
    Step::Submit(4),
    Step::Submit(5),
    Step::Submit(6),
    Step::Submit(7),
    Step::Submit(8),
    Step::Submit(9),
    Step::Submit(10),
    Step::Submit(11),
    Step::Submit(12),
    Step::Submit(13),
    Step::Submit(14),
    Step::Submit(15),
    Step::Submit(16),
    Step::Submit(17),
    Step::Submit(18),
    Step::Status,
    Step::Submit(19),
];
