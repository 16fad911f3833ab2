//! A helper's talk with the agent: `helper_main` says HELLO and answers the agent's requests in order,
//! over anything that answers them and any helper behind, to which it hands on what is answered there
//! (docs/PROTOCOL.md, "Messages of child processes"). Stands on child_peer and frame_core.
#![tactic(auto)]

mod answerer;
mod asked;
mod behind;
mod laws;
mod list_behind;
mod program;
mod reply;
mod status;
mod stream;

pub use answerer::{Answerer, Routed};
pub use asked::Asked;
pub use behind::{Exchange, HelperBehind};
pub use laws::{answers_are_in_order, what_is_handed_on};
pub use list_behind::ListBehind;
pub use program::helper_main;
pub use status::HelperStatus;
