//! Journals of small values, each with what is so of it.
#![tactic(auto)]

pub mod found_journals;
pub mod journal_folders;
pub mod journal_tables;
pub mod open_journals;
pub mod record_rows;
pub mod row_readings;
pub mod stopped_clusters;
pub mod table_shapes;
