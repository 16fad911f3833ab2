//! A filter before another agent: its pairs, and what each event makes of them, with no input or output of its own.
//! Each step is one step of filter_model. Stands on filter_model, agent_msg, key_purposes, frame_core and secret_buf.
#![tactic(auto)]

mod blobs;
mod buffers;
mod cut;
mod event;
mod fate;
mod filter;
mod listed;
mod places;
mod slot;

pub use blobs::Blobs;
pub use event::FilterEvent;
pub use filter::Filter;
pub use listed::Listed;
