//! The commands of a client: how they run, and what they print.

pub(crate) mod address_text;
pub(crate) mod advice;
pub(crate) mod asker;
pub(crate) mod call_fault;
pub(crate) mod caller;
pub(crate) mod calls;
pub(crate) mod decision;
pub(crate) mod entry_form;
pub(crate) mod follow;
pub(crate) mod follow_turn;
pub(crate) mod node_asker;
pub(crate) mod node_caller;
pub(crate) mod node_stream;
pub(crate) mod patient_stream;
pub(crate) mod print;
pub(crate) mod printed;
pub(crate) mod publish;
pub(crate) mod refused_write;
pub(crate) mod run;
pub(crate) mod status;
pub(crate) mod stream_end;
pub(crate) mod stream_fault;
pub(crate) mod texts;
