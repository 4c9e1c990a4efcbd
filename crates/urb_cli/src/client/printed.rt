//! What a client's command prints.
//!
//! It has a file of its own, because definitions that `print.rt` imports name this type.

ghost use Rattle.std.specs.Prelude.{◌≡◌, ◌==◌, ◌||◌, true};

/// A text for standard output, and the program's status after it.
#[derive(Drop)]
pub struct Printed {
    /// Whole lines.
    pub text: Vec<u8>,
    /// 0 if the command was done, and 4 if it was refused.
    pub status: u8,
    ghost end: { (status == 0 || status == 4) ≡ true },
}
