//! Worked examples of the definitions: acts, listeners, batches of tickets, and the stores that
//! workers serve, and what none of them can be.

pub mod acts;
pub mod listenings;
pub mod own_jobs;
pub mod served_stores;
pub mod ticket_batches;
