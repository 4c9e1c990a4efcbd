//! The daemon over stores in memory and journals in files, on threads and sockets of this machine.

mod consoles;
mod errands;
mod error_outputs;
mod faults;
mod folders;
mod groups;
mod openings;
mod other_limits;
mod programs;
mod reopenings;
mod reports;
mod restarts;
mod runs;
mod sockets;
mod starts;
mod strangers;
mod visits;
