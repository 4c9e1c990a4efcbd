//! The states of a whole group, and the laws that hold in all of them.
//!
//! A *world* is the algorithm's own state: every node's storage and memory, and every packet that
//! was ever sent. A run is a list of events, in any order: submits, arrivals, ticks, receipts,
//! failed stores, crashes and restarts. The laws hold in every world that a run reaches.
//!
//! ```text
//! specs/World.antt            a world, and the worlds with which a group begins
//! specs/Step.antt             an event (`step`), a list of events (`run`), `IsReached`
//! specs/SafetyProperties.antt what a safe world is
//! specs/Rounds.antt           which events deliver
//!
//! laws::every_run_is_safe();                // a call brings a law into a proof
//! fairness::two_busy_rounds_deliver();
//! ```
//!
//! `laws` has the theorems over all runs, `heard_laws` those about certificates that nodes heard,
//! and `delivering` those about one event. `starts` says with which limits a stopped group may
//! start again. `recovering` says that no state is a dead end, and `fairness` that rounds deliver
//! in any order. `worked` has worked examples of the definitions.
//!
//! No code here does anything when it runs. The crate knows no type of a group in memory.
//! `urb_group` has these types, and says which worlds a group shows.
#![tactic(auto)]

pub mod delivering;
pub mod fairness;
pub mod heard_laws;
pub mod laws;
pub mod recovering;
pub mod starts;
pub mod worked;
