//! Worked examples of the definitions: which worlds a prediction speaks of.

pub mod later_worlds;
