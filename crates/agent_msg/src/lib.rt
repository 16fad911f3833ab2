//! Requests of a client of an agent, and the replies to them: draft-miller-ssh-agent.
//!
//! Stands on `key_blob` and `constraint_rec` for added keys, and on `secret_buf` for replies.
#![tactic(auto)]

mod agent_reply;
mod bind;
mod fault;
mod laws;
mod read;
mod reply;
mod reply_reader;
mod request;
mod writer;

pub use agent_reply::{Reply, ReplyFault};
pub use bind::names_bind;
pub use fault::MsgFault;
pub use laws::{
    a_body_is_one_request, a_head_and_its_entries_are_the_list, a_request_to_bind_is_named,
};
pub use read::read_request;
pub use reply::{put_list_entry, put_list_head, put_signature, put_status};
pub use reply_reader::{a_written_reply_is_read_back, read_reply};
pub use request::Request;
pub use writer::write_request;
