//! A module for each crate.

mod certified;
mod fifo;
mod majority;
mod refusing;
mod stubborn;
