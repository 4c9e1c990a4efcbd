//! Worked examples of the definitions: ends of runs, runs over stores that may hold records ahead,
//! and what the options of a service mean.

pub mod run_ends;
pub mod runs_ahead;
pub mod services;
