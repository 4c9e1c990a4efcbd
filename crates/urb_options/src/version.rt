//! The version of the program.

/// The version of the program and, below it, the formats that it reads and writes. `urbd --version`
/// prints this after the program's name. docs/FORMATS.md describes the formats.
pub const VERSION: &str = "0.2.0\n\
packets: sends version 2, reads versions 1 and 2\n\
journals: writes journal2, reads journal and journal2";
