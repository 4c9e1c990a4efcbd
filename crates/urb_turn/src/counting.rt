//! What exists for proofs: the count of a worker's events, the ledger that adds the counts up, and
//! when each worker gave the House back last.
//!
//! No caller needs it in order to run. It lets the contract of `Hub::close` say that the House has
//! counted the events of all workers' turns and no others. And it lets the contract of `Hub::work`
//! say that nothing happened to a node since its worker gave the House back, except that the node
//! may have crashed. While the program runs, it costs one addition for each event, and one
//! comparison for each loan.

pub(crate) mod counted_house;
pub(crate) mod last_loans;
pub(crate) mod tally;
