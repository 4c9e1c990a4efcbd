//! Journals over files in memory and over real files, and groups over journals.

mod batches;
mod changes;
mod closings;
mod desks;
mod disks;
mod files;
mod first_starts;
mod folders;
mod group;
mod groups;
mod kept;
mod leftovers;
mod pools;
mod records;
mod restarts;
mod steps;
mod stops;
mod stores;
mod tables;
mod withdrawals;
